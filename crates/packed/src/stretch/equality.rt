// Whether two stretches have the same monomials.
ghost use Rattle.std.specs.Ordering.{on};
ghost use Rattle.std.specs.Cmp.{on_per};
ghost use Rattle.std.proofs.lemmas.Cmp.{on_equiv};
ghost use Rattle.terms.specs.Operations.{same_terms};
ghost use Rattle.packed.specs.StretchTerms.{stretch_terms};
ghost use Rattle.packed.specs.Same.{same_terms-per, same_terms-equivalence};

use super::Stretch;
use crate::monomials::Monomials;

impl PartialEq for Stretch<'_> {
    ghost eq = { on stretch_terms same_terms };

    ghost laws = { on_per stretch_terms same_terms-per };

    fn eq(&self, other: &Self) -> bool {
        // Lists of different lengths aren't walked.
        self.len() == other.len() && self.terms().eq(other.terms())
    }
}

impl Eq for Stretch<'_> {
    ghost laws = { on_equiv stretch_terms same_terms-equivalence };
}

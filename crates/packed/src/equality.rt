// Whether two stored polynomials are the same, or one the negative of the other.
ghost use Rattle.std.specs.Prelude.{◌≡◌};
ghost use Rattle.terms.specs.Operations.{same_terms, neg_terms};
ghost use Rattle.packed.specs.Terms.{terms_in};

use crate::stretch::Stretch;
use crate::view::View;

pub fn same(left: View, right: View) -> bool
    ensures { result ≡ same_terms (terms_in left.entry) (terms_in right.entry) }
{
    Stretch::whole(left) == Stretch::whole(right)
}

// Whether the negative of the first is the second.
pub fn same_as_negative(left: View, right: View) -> bool
    ensures { result ≡ same_terms (neg_terms (terms_in left.entry)) (terms_in right.entry) }
{
    Stretch::whole(left).negated() == Stretch::whole(right)
}

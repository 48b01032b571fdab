// What the facts tell of the sign of a leading coefficient.
ghost use Rattle.std.specs.Prelude.{◌≡◌, ℕ};
ghost use Rattle.field.specs.Sign.{sign_of};
ghost use Rattle.poly.specs.Leading.{leading as leading_of};
ghost use Rattle.terms.specs.Operations.{same_terms, neg_terms, number_terms};
ghost use Rattle.packed.specs.StretchTerms.{stretch_terms};
ghost use Rattle.sign_table.specs.Facts.{known, among};
ghost use Rattle.machine.specs.Stacks.{back};
ghost use Rattle.stacks.specs.Values.{fact_in};
ghost use Rattle.stacks.specs.Memories.{front_poly, fact_from};
ghost use Rattle.table_machine.specs.Told.{known_of, told_by, leading_front};

use super::Polynomials;
use crate::front::Front;
use field::sign::Sign;
use packed::stretch::Stretch;
use stacks::arrays::read;
use stacks::marks::Fact;

// The sign of a number, as a polynomial with no variables.
fn number_sign(number: Stretch) -> Sign
    ensures { result ≡ sign_of (number_terms (stretch_terms number.entry)) }
{
    if number.len() == 0 {
        return Sign::Zero;
    }
    Sign::of(number.term(0).coefficient)
}

impl Polynomials<'_> {
    // The sign that a fact gives to a leading coefficient, if it is about that or its negative.
    fn told(&self, leading: Stretch, fact: Fact) -> Option<Sign>
        ensures { known_of result ≡ told_by (same_terms (stretch_terms leading.entry) (leading_front self.now.others.count self.now.slots.now fact.slot fact.count)) (same_terms (neg_terms (stretch_terms leading.entry)) (leading_front self.now.others.count self.now.slots.now fact.slot fact.count)) fact.sign }
    {
        let about = self.leading(Front::from(fact));
        if leading == about {
            return Some(fact.sign);
        }
        if leading.negated() == about {
            return Some(fact.sign.flipped());
        }
        None
    }

    // What the first `len` facts tell, the newest first. The facts lie in a longer lent array, of which `len` are in use: a slice of just these would ask that the array is so long, which isn't asked where facts are read.
    fn among_facts(&self, facts: &[i64], front: Front, len: u16) -> Option<Sign>
        ensures { known_of result ≡ among self.now.others.count (leading_of self.now.others.count (front_poly self.now.others.count self.now.slots.now front.slot front.count)) (back (λ i. fact_from self.now.others.count self.now.slots.now (fact_in facts.now i)) len) }
    {
        let leading = self.leading(front);
        (0..len)
            .rev()
            .find_map(|i| self.told(leading, read(facts, i)))
    }

    // What is known of the sign of a leading coefficient, by the first `len` facts. With no variables left it is a number, which has its sign.
    pub fn known_sign(&self, facts: &[i64], front: Front, len: u16) -> Option<Sign>
        ensures { known_of result ≡ known self.now.others.count (leading_of self.now.others.count (front_poly self.now.others.count self.now.slots.now front.slot front.count)) (back (λ i. fact_from self.now.others.count self.now.slots.now (fact_in facts.now i)) len) }
    {
        let leading = self.leading(front);
        if self.others.count() == 0 {
            return Some(number_sign(leading));
        }
        if leading.len() == 0 {
            return Some(Sign::Zero);
        }
        self.among_facts(facts, front, len)
    }
}

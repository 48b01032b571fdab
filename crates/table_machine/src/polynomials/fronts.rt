// The first monomials of a polynomial, and the parts of these.
ghost use Rattle.std.specs.Prelude.{◌≡◌};
ghost use Rattle.packed.specs.Terms.{terms_in};
ghost use Rattle.packed.specs.StretchTerms.{stretch_terms};
ghost use Rattle.table_machine.specs.Told.{front_terms, leading_front};

use super::Polynomials;
use crate::front::Front;
use packed::stretch::Stretch;
use packed::view::View;
use stacks::slots::view_at;

impl<'a> Polynomials<'a> {
    pub fn view(&self, front: Front) -> View<'a>
        ensures { terms_in result ≡ front_terms self.now.slots.now front.slot front.count }
    {
        view_at(self.slots, front.slot, front.count)
    }

    // The leading coefficient.
    pub(super) fn leading(&self, front: Front) -> Stretch<'a>
        ensures { stretch_terms result ≡ leading_front self.now.others.count self.now.slots.now front.slot front.count }
    {
        Stretch::leading(self.view(front), self.others)
    }
}

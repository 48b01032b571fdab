// What the machine's memory holds.
ghost use Rattle.std.specs.Prelude.{◌≡◌, ◌+◌, ◌<◌};
ghost use Rattle.packed.specs.Terms.{terms_in};
ghost use Rattle.poly.specs.Poly.{is_zero};
ghost use Rattle.stacks.specs.Values.{left_in, question_in};
ghost use Rattle.table_machine.specs.Told.{known_of, front_terms};
ghost use Rattle.table_machine.specs.Settling.{next_marks};
ghost use Rattle.table_machine.specs.Moving.{current_poly, current_known};

use super::Machine;
use crate::facing::Facing;
use crate::polynomials::Polynomials;
use field::sign::Sign;
use packed::view::View;
use stacks::arrays::read;
use stacks::marks::{Left, Question};

impl Machine<'_> {
    pub(super) fn polynomials(&self) -> Polynomials
        ensures others { result.others ≡ self.now.others }
        ensures slots { result.slots.now ≡ self.now.slots.now }
    {
        Polynomials {
            others: self.others,
            slots: self.slots,
        }
    }

    // What is left of the current polynomial.
    pub fn current(&self, at: Facing) -> View
        ensures { terms_in result ≡ front_terms self.now.slots.now (at.marks.base + at.marks.done) at.marks.count }
    {
        self.polynomials().view(at.front())
    }

    pub(super) fn is_zero(&self, at: Facing) -> bool
        ensures { result ≡ is_zero (current_poly self.now.others.count self.now.slots.now at.marks) }
    {
        self.current(at).is_zero()
    }

    // What the facts tell of its leading coefficient.
    pub(super) fn known(&self, at: Facing) -> Option<Sign>
        ensures { known_of result ≡ current_known self.now.others.count self.now.slots.now self.now.facts.now at.marks }
    {
        self.polynomials()
            .known_sign(self.facts, at.front(), at.marks.facts)
    }

    // At the next polynomial.
    pub(super) fn next(&self, at: Facing) -> Facing
        requires { (0 < at.marks.looks) × (0 < at.marks.ahead) }
        ensures marks { result.marks ≡ next_marks self.now.slots.now at.marks }
        ensures pending { result.pending ≡ at.pending }
    {
        at.next(self.slots)
    }

    // What is left of the polynomial in a slot.
    pub(super) fn left(&self, slot: u16) -> Left
        ensures { result ≡ left_in self.now.lefts.now slot }
    {
        read(self.lefts, slot)
    }

    pub(super) fn question(&self, i: u16) -> Question
        ensures { result ≡ question_in self.now.questions.now i }
    {
        read(self.questions, i)
    }
}

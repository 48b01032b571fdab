// The current polynomial is settled, or loses its leading coefficient.
ghost use Rattle.std.specs.Prelude.{◌≡◌, ◌*◌, ◌<◌, ◌≤◌, length};
ghost use Rattle.table_machine.specs.Settling.{Settles, shorter_marks, left_count};
ghost use Rattle.table_machine.specs.Cells.{cells_of, rewritten};

use super::Machine;
use crate::facing::Facing;
use field::sign::Sign;
use stacks::arrays::write;
use stacks::marks::{Left, Marks};

impl Machine<'_> {
    // Where the machine looks when the current polynomial has lost its leading coefficient.
    fn shorter(&self, at: Facing) -> Facing
        requires some { 0 < at.marks.looks }
        ensures marks { result.marks ≡ shorter_marks self.now.others.count self.now.slots.now at.marks }
        ensures pending { result.pending ≡ at.pending }
    {
        let rest = self.current(at).without_leading(self.others);
        let marks = Marks {
            looks: at.marks.looks - 1,
            count: rest.len() as u16,
            ..at.marks
        };
        Facing {
            marks,
            pending: at.pending,
        }
    }

    // What is left of the current polynomial, whose leading coefficient has this sign, not zero.
    fn left_of(&self, at: Facing, sign: Sign) -> Left
        ensures { result ≡ record { count = left_count self.now.others.count self.now.slots.now at.marks; sign = sign } }
    {
        let is_constant = self.current(at).degree(self.others) == 0;
        let count = if is_constant { 0 } else { at.marks.count };
        Left { count, sign }
    }

    // Its leading coefficient is found to have this sign: zero takes it away, another settles the polynomial.
    pub fn settle(&mut self, at: Facing, sign: Sign) -> Facing
        requires some { (0 < at.marks.looks) × (0 < at.marks.ahead) }
        requires room { 2 * 2521 ≤ length self.old.lefts.now }
        ensures settles { Settles self.old.others.count (cells_of self.old) at.marks sign self.new.lefts.now result.marks }
        ensures pending { result.pending ≡ at.pending }
        ensures others { self.new.others ≡ self.old.others }
        ensures rest { cells_of self.new ≡ rewritten (cells_of self.old) self.new.lefts.now self.old.facts.now self.old.questions.now }
        ensures long { length self.new.lefts.now ≡ length self.old.lefts.now }
    {
        if sign == Sign::Zero {
            return self.shorter(at);
        }
        let left = self.left_of(at, sign);
        write(self.lefts, at.front().slot, left);
        self.next(at)
    }
}

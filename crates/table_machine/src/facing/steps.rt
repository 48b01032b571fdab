// The first polynomial of a table, and the next one.
ghost use Rattle.std.specs.Prelude.{◌≡◌, ℕ, ◌+◌, ◌<◌};
ghost use Rattle.packed.specs.Terms.{terms_in};
ghost use Rattle.stacks.specs.Memories.{Cells, AllHold};
ghost use Rattle.table_machine.specs.Told.{front_terms};
ghost use Rattle.table_machine.specs.Settling.{next_marks};
ghost use Rattle.table_machine.specs.Moving.{Begins};

use super::Facing;
use crate::front::Front;
use packed::view::View;
use stacks::marks::Marks;
use stacks::slots::{count_at, view_at};

impl Facing {
    // The table of the polynomials in the first `size` slots, at most 64, is begun.
    pub fn begin(slots: &[i64], size: u16) -> Facing
        ensures { (n : ℕ) (c : Cells) → c.slots ≡ slots.now → Begins n c size result }
    {
        let marks = Marks {
            looks: 63,
            base: 0,
            done: 0,
            ahead: size.min(64),
            count: count_at(slots, 0),
            facts: 0,
            frames: 0,
        };
        Facing { marks, pending: 0 }
    }

    // At the next polynomial.
    pub fn next(self, slots: &[i64]) -> Facing
        requires { (0 < self.marks.looks) × (0 < self.marks.ahead) }
        ensures marks { result.marks ≡ next_marks slots.now self.marks }
        ensures pending { result.pending ≡ self.pending }
    {
        let done = self.marks.done + 1;
        let marks = Marks {
            looks: self.marks.looks - 1,
            done,
            ahead: self.marks.ahead - 1,
            count: count_at(slots, self.marks.base + done),
            ..self.marks
        };
        Facing {
            marks,
            pending: self.pending,
        }
    }

    // What is left of the current polynomial.
    pub fn front(self) -> Front
        ensures { result ≡ record { slot = self.marks.base + self.marks.done; count = self.marks.count } }
    {
        Front {
            slot: self.marks.base + self.marks.done,
            count: self.marks.count,
        }
    }

    // The same to be read, also where the polynomials have more variables than a machine's.
    #[tactic(auto, using(crate::proofs::Telling::front_stored))]
    pub fn current(self, slots: &[i64]) -> View
        requires { (n : ℕ) × AllHold n slots.now }
        ensures { terms_in result ≡ front_terms slots.now (self.marks.base + self.marks.done) self.marks.count }
    {
        let front = self.front();
        view_at(slots, front.slot, front.count)
    }
}

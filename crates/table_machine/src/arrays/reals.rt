// The polynomials of a table that aren't of one sign everywhere.
ghost use Rattle.std.specs.Prelude.{◌≡◌, ◌+◌, ◌<◌};
ghost use Rattle.poly.specs.Leading.{degree};
ghost use Rattle.sign_table.specs.Table.{poly_of};
ghost use Rattle.stacks.specs.Values.{left_in};
ghost use Rattle.table_machine.specs.Cells.{cells_of};
ghost use Rattle.table_machine.specs.Reals.{FoundHighest, higher_of, table_left};
ghost use Rattle.table_machine.specs.Foreseeing.{Foresees};

use super::Machine;
use crate::facing::Facing;
use crate::front::Front;
use crate::outlook::{Outlook, Top};

// At most so many tables wait.
const DEEPEST: u16 = 39;

impl Machine<'_> {
    // The degree of a real polynomial of the table.
    fn degree_at(&self, at: Facing, i: u16) -> u64
        requires { (i < at.marks.done) × (0 < (left_in self.now.lefts.now (at.marks.base + i)).count) }
        ensures { result ≡ degree (poly_of (table_left self.now.others.count (cells_of self.now) at.marks i)) }
    {
        let slot = at.marks.base + i;
        let front = Front {
            slot,
            count: self.left(slot).count,
        };
        self.polynomials().view(front).degree(self.others)
    }

    // Of that and the i-th, which is real, the one of higher degree, the first if they are equal; `count` real ones come before the i-th.
    fn higher(&self, at: Facing, top: Option<Top>, i: u16, count: u16) -> Top
        requires { (i < at.marks.done) × (0 < (left_in self.now.lefts.now (at.marks.base + i)).count) }
        ensures { result ≡ higher_of self.now.others.count (cells_of self.now) at.marks top i count }
    {
        let degree = self.degree_at(at, i);
        match top {
            Some(top) if degree <= top.degree => top,
            _ => Top {
                index: i,
                place: count,
                degree,
            },
        }
    }

    // The first of the real polynomials with the highest degree, if any is real.
    pub fn highest_real(&self, at: Facing) -> Option<Top>
        ensures { FoundHighest self.now.others.count (cells_of self.now) at.marks result }
    {
        let mut top = None;
        // Counted by hand: a filter's closure would have to ask, in a contract of its own, that i lies below `done`.
        let mut count = 0;
        for i in 0..at.marks.done {
            if self.left(at.marks.base + i).count > 0 {
                top = Some(self.higher(at, top, i, count));
                count += 1;
            }
        }
        top
    }

    // Whether a polynomial is to be looked at, or a real one to be divided in the table below. Otherwise the run that counts is done with this branch:
    // no more may be looked at, none is real, or no table may come below this one.
    pub fn outlook(&self, at: Facing) -> Outlook
        ensures { Foresees self.now.others.count (cells_of self.now) at.marks result }
    {
        if at.marks.ahead > 0 {
            return if at.marks.looks > 0 {
                Outlook::Look
            } else {
                Outlook::GiveUp
            };
        }
        match self.highest_real(at) {
            Some(top) if at.marks.frames < DEEPEST => Outlook::Divide(top),
            _ => Outlook::GiveUp,
        }
    }
}

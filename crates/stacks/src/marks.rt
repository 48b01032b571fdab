// What the machine's arrays hold, and how each of these values is a few numbers.
ghost use Rattle.std.proofs.Common.{lit<};
ghost use Rattle.stacks.specs.Values.{left_of, fact_of, frame_of, marks_of, branch_of_three, question_of};

use crate::cells::{run_of, sign_at};
use arena::record::Record;
use field::sign::Sign;
use question::tree::{Tree, small_at, tree_at};

// What is left of a polynomial: its first `count` monomials, with the sign of their leading coefficient; or none, and this sign everywhere.
// An enum would say no more, since the sign stands in both cases and none is a count.
#[derive(Clone, Copy)]
pub struct Left {
    pub count: u16,
    pub sign: Sign,
}

// The leading coefficient of the first `count` monomials of the polynomial in this slot has this sign.
#[derive(Clone, Copy)]
pub struct Fact {
    pub slot: u16,
    pub count: u16,
    pub sign: Sign,
}

// A table that waits, with `size` polynomials from the slot `base` on; the real one at `place` was divided by so many divisors.
#[derive(Clone, Copy)]
pub struct Frame {
    pub base: u16,
    pub size: u16,
    pub place: u16,
    pub divisors: u16,
}

// Of the table's polynomials, which stand from the slot `base` on, `done` are settled and `ahead` are not; `count` monomials are left of the first of these.
// So many more may be looked at, and so many facts and frames there are.
#[derive(Clone, Copy)]
pub struct Marks {
    pub looks: u16,
    pub base: u16,
    pub done: u16,
    pub ahead: u16,
    pub count: u16,
    pub facts: u16,
    pub frames: u16,
}

// Which branch of a question is being explored, with the trees of those above it.
#[derive(Clone, Copy)]
pub enum Branch {
    Above,
    At(Tree),
    Below(Tree, Tree),
}

// An open question, with the marks when it was asked.
#[derive(Clone, Copy)]
pub struct Question {
    pub marks: Marks,
    pub branch: Branch,
}

impl Record for Left {
    const WIDTH: usize = 2;

    ghost WIDTH = { 2 };

    ghost value_of = { left_of };

    ghost narrow = { lit< tt };

    fn decoded(cells: &[i64]) -> Left {
        Left {
            count: small_at(cells, 0),
            sign: sign_at(cells, 1),
        }
    }

    fn encode(self, cells: &mut [i64]) {
        cells.copy_from_slice(&[i64::from(self.count), i64::from(self.sign)]);
    }
}

impl Record for Fact {
    const WIDTH: usize = 3;

    ghost WIDTH = { 3 };

    ghost value_of = { fact_of };

    ghost narrow = { lit< tt };

    fn decoded(cells: &[i64]) -> Fact {
        Fact {
            slot: small_at(cells, 0),
            count: small_at(cells, 1),
            sign: sign_at(cells, 2),
        }
    }

    fn encode(self, cells: &mut [i64]) {
        cells.copy_from_slice(&[
            i64::from(self.slot),
            i64::from(self.count),
            i64::from(self.sign),
        ]);
    }
}

impl Record for Frame {
    const WIDTH: usize = 4;

    ghost WIDTH = { 4 };

    ghost value_of = { frame_of };

    ghost narrow = { lit< tt };

    fn decoded(cells: &[i64]) -> Frame {
        Frame {
            base: small_at(cells, 0),
            size: small_at(cells, 1),
            place: small_at(cells, 2),
            divisors: small_at(cells, 3),
        }
    }

    fn encode(self, cells: &mut [i64]) {
        cells.copy_from_slice(&[
            i64::from(self.base),
            i64::from(self.size),
            i64::from(self.place),
            i64::from(self.divisors),
        ]);
    }
}

impl Record for Marks {
    const WIDTH: usize = 7;

    ghost WIDTH = { 7 };

    ghost value_of = { marks_of };

    ghost narrow = { lit< tt };

    fn decoded(cells: &[i64]) -> Marks {
        Marks {
            looks: small_at(cells, 0),
            base: small_at(cells, 1),
            done: small_at(cells, 2),
            ahead: small_at(cells, 3),
            count: small_at(cells, 4),
            facts: small_at(cells, 5),
            frames: small_at(cells, 6),
        }
    }

    fn encode(self, cells: &mut [i64]) {
        cells.copy_from_slice(&[
            i64::from(self.looks),
            i64::from(self.base),
            i64::from(self.done),
            i64::from(self.ahead),
            i64::from(self.count),
            i64::from(self.facts),
            i64::from(self.frames),
        ]);
    }
}

// Lent memory holds numbers alone, so the first says how many trees are finished; then come these, the one above first.
impl Record for Branch {
    const WIDTH: usize = 3;

    ghost WIDTH = { 3 };

    ghost value_of = { branch_of_three };

    ghost narrow = { lit< tt };

    fn decoded(cells: &[i64]) -> Branch {
        let above = tree_at(cells, 1);
        match small_at(cells, 0) {
            0 => Branch::Above,
            1 => Branch::At(above),
            _ => Branch::Below(tree_at(cells, 2), above),
        }
    }

    fn encode(self, cells: &mut [i64]) {
        match self {
            Branch::Above => cells.copy_from_slice(&[0, 0, 0]),
            Branch::At(above) => cells.copy_from_slice(&[1, i64::from(above), 0]),
            Branch::Below(at, above) => {
                cells.copy_from_slice(&[2, i64::from(above), i64::from(at)]);
            }
        }
    }
}

impl Record for Question {
    const WIDTH: usize = 10;

    ghost WIDTH = { 10 };

    ghost value_of = { question_of };

    ghost narrow = { lit< tt };

    fn decoded(cells: &[i64]) -> Question {
        Question {
            marks: Marks::decoded(cells),
            branch: Branch::decoded(run_of(cells, Marks::WIDTH, Branch::WIDTH)),
        }
    }

    fn encode(self, cells: &mut [i64]) {
        let (marks, branch) = cells.split_at_mut(Marks::WIDTH);
        self.marks.encode(marks);
        self.branch.encode(branch);
    }
}

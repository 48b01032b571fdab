// What a table keeps between two rows.
ghost use Rattle.std.specs.Prelude.{◌≡◌};
ghost use Rattle.stream.specs.Step.{left_end};
ghost use Rattle.row_stream.specs.Known.{known_of};
ghost use Rattle.row_stream.specs.Cells.{side_of, held_of};

use crate::looks::first_sign;
use crate::signs::Signs;
use field::sign::Sign;

// What lies left of an interval: no point that stays, or one, with p's sign there.
// An enum of its own, since an Option of an Option wouldn't say which None is which.
#[derive(Clone, Copy, PartialEq, Eq, Debug)]
pub enum Side {
    Far,
    After(Option<Sign>),
}

impl Side {
    // p's sign at the left end of an interval with these signs of the others.
    pub fn left_end(self, signs: &[Sign]) -> Option<Sign>
        ensures { known_of result ≡ left_end (side_of self) signs.now }
    {
        match self {
            Side::Far => Some(first_sign(signs).flipped()),
            Side::After(p) => p,
        }
    }
}

// What lies left of the last interval, and the others' signs on it while its point is still to come.
#[derive(Clone, Copy)]
pub struct Cell {
    pub side: Side,
    pub held: Option<Signs>,
}

impl Cell {
    // The others' signs on the interval; no sign where none is held.
    pub fn held(&self) -> &[Sign]
        ensures { result.now ≡ held_of self.now }
    {
        match &self.held {
            Some(held) => held.view(),
            None => &[],
        }
    }
}

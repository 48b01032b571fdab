// A tree of questions: an answer, or the index of a question in lent memory. The answers are cases of their own: an Answer within a case would be one match more at each place.
ghost use Rattle.std.specs.Prelude.{◌≡◌, length, pos, slice_index_or};
ghost use Rattle.std.proofs.Common.{lit<};
ghost use Rattle.question.specs.Cells.{cell_of, tree_at, small_of};
ghost use Rattle.question.specs.Nodes.{chosen, node_of, node_cells};

use arena::record::{Record, number_at};
use field::sign::Sign;

#[derive(Clone, Copy, PartialEq, Eq, Debug)]
pub enum Tree {
    Yes,
    No,
    GivenUp,
    Question(u16),
}

// A tree as one number, which reads back: 0, 1 and 2 for the answers, then the questions.
impl From<Tree> for i64 {
    ghost from_gives = { λ tree z. (z ≡ cell_of tree) × (tree_at z ≡ tree) };

    fn from(tree: Tree) -> i64 {
        match tree {
            Tree::Yes => 0,
            Tree::No => 1,
            Tree::GivenUp => 2,
            Tree::Question(i) => i64::from(i) + 3,
        }
    }
}

// The tree that a number stands for; what stands for none is given up.
impl From<i64> for Tree {
    ghost from_gives = { λ z tree. tree ≡ tree_at z };

    fn from(cell: i64) -> Tree {
        match cell {
            0 => Tree::Yes,
            1 => Tree::No,
            3..=65538 => Tree::Question((cell - 3) as u16),
            _ => Tree::GivenUp,
        }
    }
}

// A number that fits 16 bits; what doesn't is 0.
pub fn small(z: i64) -> u16
    ensures { result ≡ small_of z }
{
    u16::try_from(z).unwrap_or(0)
}

// A number below 2^16 at a place.
pub fn small_at(cells: &[i64], i: usize) -> u16
    ensures { result ≡ small_of (slice_index_or cells.now i (pos 0)) }
{
    small(number_at(cells, i))
}

// The tree that the number at a place stands for.
pub fn tree_at(cells: &[i64], i: usize) -> Tree
    ensures { result ≡ tree_at (slice_index_or cells.now i (pos 0)) }
{
    Tree::from(number_at(cells, i))
}

// A question: which polynomial it asks about, what follows where that is below, at and above zero, and how many questions the tree has
// that begins with it, each counted as often as it stands there, up to 3,500.
#[derive(Clone, Copy)]
pub struct Question {
    pub polynomial: u16,
    pub below: Tree,
    pub at: Tree,
    pub above: Tree,
    pub weight: u16,
}

impl Question {
    // What follows where the polynomial has this sign.
    pub fn end(self, sign: Sign) -> Tree
        ensures { result ≡ chosen self sign }
    {
        match sign {
            Sign::Neg => self.below,
            Sign::Zero => self.at,
            Sign::Pos => self.above,
        }
    }
}

impl Record for Question {
    const WIDTH: usize = 5;

    ghost WIDTH = { 5 };

    ghost value_of = { node_of };

    ghost narrow = { lit< tt };

    fn decoded(cells: &[i64]) -> Question {
        Question {
            polynomial: small_at(cells, 0),
            below: tree_at(cells, 1),
            at: tree_at(cells, 2),
            above: tree_at(cells, 3),
            weight: small_at(cells, 4),
        }
    }

    fn encode(self, cells: &mut [i64])
        requires { length cells.old ≡ 5 }
        ensures value { node_of cells.new ≡ self }
        ensures cells { cells.new ≡ node_cells self }
    {
        cells.copy_from_slice(&[
            i64::from(self.polynomial),
            i64::from(self.below),
            i64::from(self.at),
            i64::from(self.above),
            i64::from(self.weight),
        ]);
    }
}

// Operations of terms: their polynomials at the top of an arena, or none where one isn't modest.
// The scratch and the arena are two parameters: as one struct they would be named one step deeper in every clause, and what reads or packs takes just the arena. Room is asked at each call, since it differs from call to call.
ghost use Rattle.std.specs.Prelude.{◌≡◌, ℕ, ◌+◌, ◌^◌, ◌≤◌, length};
ghost use Rattle.poly.specs.Arithmetic.{constant, variable};
ghost use Rattle.poly.specs.Modest.{checked};
ghost use Rattle.terms.specs.Monomial.{Rising};
ghost use Rattle.packed.specs.Terms.{terms_in};
ghost use Rattle.wide.specs.Written.{written};
ghost use Rattle.sentence_tree.specs.Operations.{combined, combined_lists};
ghost use Rattle.sentence_tree.specs.Operands.{Ready, Joins};
ghost use Rattle.sentence_tree.specs.Placed.{Placed, Places};

use arena::arena::Arena;
use packed::variables::Variables;
use packed::view::View;
use storage::pack::pack;
use storage::remainder::view;
use storage::span::Span;
use wide::scratch::Scratch;
use wide::wide::Wide;

// What was computed, stored if it is modest.
fn place(list: &Wide, arena: &mut Arena) -> Option<usize>
    requires rising { Rising 0 (2 ^ 20) (written list.now) }
    requires room { arena.old.top + 64 ≤ length arena.old.cells.now }
    ensures placed { Places (written list.now) result arena.old.top arena.old.cells.now arena.new.top arena.new.cells.now }
    ensures lent { arena.new.cells.ghost_name ≡ arena.old.cells.ghost_name }
{
    pack(list, arena).ok()
}

// A number, in however many variables.
pub fn place_number(scratch: &mut Scratch, arena: &mut Arena, number: i64) -> Option<usize>
    requires room { arena.old.top + 64 ≤ length arena.old.cells.now }
    ensures placed { (n : ℕ) → n ≤ 4 → Placed n (checked n (constant n number)) result arena.old.top arena.old.cells.now arena.new.top arena.new.cells.now }
    ensures lent { arena.new.cells.ghost_name ≡ arena.old.cells.ghost_name }
{
    scratch.number(number);
    place(&scratch.front, arena)
}

// A variable, one of so many.
pub fn place_variable(
    scratch: &mut Scratch,
    arena: &mut Arena,
    variables: Variables,
    i: u8,
) -> Option<usize>
    requires room { arena.old.top + 64 ≤ length arena.old.cells.now }
    ensures placed { Placed variables.count (checked variables.count (variable variables.count i)) result arena.old.top arena.old.cells.now arena.new.top arena.new.cells.now }
    ensures lent { arena.new.cells.ghost_name ≡ arena.old.cells.ghost_name }
{
    scratch.variable(variables, u32::from(i));
    place(&scratch.front, arena)
}

// Where two operands lie: one behind the other, from a mark on to the top.
#[derive(Clone, Copy)]
pub struct Operands {
    pub mark: usize,
    pub left: Option<usize>,
    pub right: Option<usize>,
}

// What is made of two terms.
#[derive(Clone, Copy, PartialEq, Eq, Debug)]
pub enum Operation {
    Sum,
    Product,
}

impl Operation {
    // Of two stored polynomials, at the front of the scratch.
    fn compute(self, scratch: &mut Scratch, left: View, right: View)
        ensures value { written scratch.new.front ≡ combined_lists self (terms_in left.entry) (terms_in right.entry) }
        ensures rising { Rising 0 (2 ^ 20) (written scratch.new.front) }
    {
        match self {
            Operation::Sum => scratch.sum(left, right),
            Operation::Product => scratch.product(left, right),
        }
    }
}

// What is made of two operands, in place of them.
pub fn place_combined(
    scratch: &mut Scratch,
    arena: &mut Arena,
    operation: Operation,
    operands: Operands,
) -> Option<usize>
    requires ready { Ready operands arena.old.top arena.old.cells.now }
    ensures placed { Joins (combined operation) operands result arena.old.top arena.old.cells.now arena.new.top arena.new.cells.now }
    ensures lent { arena.new.cells.ghost_name ≡ arena.old.cells.ghost_name }
{
    let (Some(left), Some(right)) = (operands.left, operands.right) else {
        arena.release(operands.mark);
        return None;
    };
    let first = Span {
        from: operands.mark,
        count: left,
    };
    let second = Span {
        from: operands.mark + left,
        count: right,
    };
    operation.compute(scratch, view(arena, first), view(arena, second));
    arena.release(operands.mark);
    place(&scratch.front, arena)
}

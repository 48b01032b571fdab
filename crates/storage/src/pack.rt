// A modest list of monomials, stored at an arena's top.
ghost use Rattle.std.specs.Prelude.{◌≡◌, ℕ, ◌+◌, ◌^◌, ◌<◌, ◌≤◌, length};
ghost use Rattle.poly.specs.Modest.{magnitude};
ghost use Rattle.terms.specs.Monomial.{Rising};
ghost use Rattle.terms.specs.Cells.{cell_of};
ghost use Rattle.packed.specs.Terms.{monomial_in};
ghost use Rattle.wide.specs.Written.{written};
ghost use Rattle.storage.specs.Storing.{stored};

use crate::modest::is_modest;
use arena::arena::Arena;
use packed::monomials::Monomials;
use packed::term::Term;
use wide::wide::Wide;

// The polynomial isn't modest.
#[derive(Clone, Copy, PartialEq, Eq, Debug)]
pub struct TooBig;

// Stores the list and says how many numbers that took, at most 64; or refuses it, and nothing has changed.
// How much room an arena has differs from call to call, so each call asks for it; and the definitions speak of a top and of numbers, so clauses name the two apart.
pub fn pack(list: &Wide, arena: &mut Arena) -> Result<usize, TooBig>
    requires rising { Rising 0 (2 ^ 20) (written list.now) }
    requires room { arena.old.top + 64 ≤ length arena.old.cells.now }
    ensures stored { stored result (written list.now) arena.old.top arena.old.cells.now arena.new.top arena.new.cells.now }
    ensures lent { arena.new.cells.ghost_name ≡ arena.old.cells.ghost_name }
{
    if !is_modest(list) {
        return Err(TooBig);
    }
    for term in list.terms() {
        arena.put(cell(term));
    }
    Ok(list.len())
}

// The same, in place of what stands from a mark on; a list that is refused leaves the arena at the mark.
pub fn pack_at(list: &Wide, arena: &mut Arena, mark: usize) -> Result<usize, TooBig>
    requires rising { Rising 0 (2 ^ 20) (written list.now) }
    requires room { (mark ≤ arena.old.top) × (mark + 64 ≤ length arena.old.cells.now) }
    ensures stored { stored result (written list.now) mark arena.old.cells.now arena.new.top arena.new.cells.now }
    ensures lent { arena.new.cells.ghost_name ≡ arena.old.cells.ghost_name }
{
    arena.release(mark);
    pack(list, arena)
}

// A monomial as one number. No From, since that couldn't ask for a key and a coefficient that fit.
fn cell(term: Term) -> i64
    requires { (term.key < 2 ^ 20) × (magnitude term.coefficient < 2 ^ 27) }
    ensures { result ≡ cell_of (monomial_in term) }
{
    term.coefficient * (1 << 20) + term.key as i64
}

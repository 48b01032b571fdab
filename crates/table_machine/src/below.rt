// The polynomials of the table below.
ghost use Rattle.std.specs.Prelude.{◌≡◌, ℕ, ◌+◌, ◌*◌, ◌<◌, ◌≤◌, length, take};
ghost use Rattle.packed.specs.Stored.{Stored};
ghost use Rattle.stacks.specs.Slots.{slot_in};
ghost use Rattle.stacks.specs.Memories.{AllHold};
ghost use Rattle.table_machine.specs.Derived.{derives};
ghost use Rattle.table_machine.specs.Loading.{loaded};

use crate::front::Front;
use crate::polynomials::Polynomials;
use arena::arena::{Arena, Full};
use packed::variables::Variables;
use stacks::slots::{front_at, put_polynomial};
use storage::pack::{TooBig, pack};
use storage::span::Span;
use wide::scratch::Scratch;

// The derivative of the first monomials of a polynomial, stored in another slot if it is modest. The arena is only worked in.
// No method of the machine: it writes a slot, and that every slot holds a polynomial then is for its caller to say.
pub fn put_derivative(
    slots: &mut [i64],
    others: Variables,
    front: Front,
    to: u16,
    scratch: &mut Scratch,
    arena: &mut Arena,
) -> Result<(), TooBig>
    requires few { others.count < 4 }
    requires hold { AllHold others.count slots.old }
    requires room { (65 * to + 65 ≤ length slots.old) × (arena.old.top + 64 ≤ length arena.old.cells.now) }
    ensures derives { derives result others.count slots.old front.slot front.count to slots.new }
    ensures arena { (arena.new.top ≡ arena.old.top) × (take arena.new.top arena.new.cells.now ≡ take arena.old.top arena.old.cells.now) }
{
    let mark = arena.top();
    let polynomials = Polynomials { others, slots };
    scratch.derivative(polynomials.view(front), others);
    let len = pack(&scratch.front, arena)?;
    put_polynomial(slots, to, arena.part(mark, len));
    arena.release(mark);
    Ok(())
}

// The first monomials of a polynomial, copied to the arena's top; refused where there is no room.
pub fn load(slots: &[i64], front: Front, arena: &mut Arena) -> Result<Span, Full>
    requires { Stored (take front.count (slot_in slots.now front.slot)) }
    ensures { loaded result slots.now front.slot front.count arena.old.top arena.old.cells.now arena.new.top arena.new.cells.now }
{
    let from = arena.top();
    let monomials = front_at(slots, front.slot, front.count);
    arena.push_all(monomials)?;
    Ok(Span {
        from,
        count: monomials.len(),
    })
}

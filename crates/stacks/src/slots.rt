// Polynomials in numbered slots of 65 numbers: how many monomials there are, then the monomials. The memory is lent, so the count stands in it too.
ghost use Rattle.std.specs.Prelude.{◌≡◌, ℕ, ◌+◌, ◌*◌, ◌≤◌, length, take};
ghost use Rattle.terms.specs.Cells.{monomials_of};
ghost use Rattle.packed.specs.Stored.{Stored};
ghost use Rattle.packed.specs.Terms.{terms_in};
ghost use Rattle.stacks.specs.Written.{Written};
ghost use Rattle.stacks.specs.Slots.{slot_of, slot_in};
ghost use Rattle.stacks.specs.Memories.{AllHold};

use crate::cells::{put, run_of};
use packed::view::View;
use question::tree::small_at;

// How many numbers a slot takes.
pub const SLOT: usize = 65;

// The first monomials of a polynomial, so many or all.
fn front(slot: &[i64], count: u16) -> &[i64]
    ensures { result.now ≡ take count (slot_of slot.now) }
{
    let len = count.min(small_at(slot, 0)).min(64);
    run_of(slot, 1, len as usize)
}

// The same of the polynomial in a slot.
pub fn front_at(slots: &[i64], i: u16, count: u16) -> &[i64]
    ensures { result.now ≡ take count (slot_in slots.now i) }
{
    front(run_of(slots, SLOT * i as usize, SLOT), count)
}

// The same to be read.
pub fn view_at(slots: &[i64], i: u16, count: u16) -> View
    requires { Stored (take count (slot_in slots.now i)) }
    ensures { terms_in result ≡ monomials_of (take count (slot_in slots.now i)) }
{
    View::new(front_at(slots, i, count))
}

// How many monomials the polynomial in a slot has.
pub fn count_at(slots: &[i64], i: u16) -> u16
    ensures value { result ≡ length (slot_in slots.now i) }
    ensures bound { result ≤ 64 }
{
    front_at(slots, i, 64).len() as u16
}

pub fn put_polynomial(slots: &mut [i64], i: u16, monomials: &[i64])
    requires room { 65 * i + 65 ≤ length slots.old }
    requires few { length monomials.now ≤ 64 }
    ensures { Written slot_in i monomials.now slots.old slots.new }
{
    let at = SLOT * i as usize;
    put(slots, at, &[monomials.len() as i64]);
    put(slots, at + 1, monomials);
}

// Zero in every slot.
pub fn clear(slots: &mut [i64])
    ensures { (n : ℕ) → AllHold n slots.new }
{
    slots.fill(0);
}

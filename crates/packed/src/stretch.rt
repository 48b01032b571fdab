// The monomials of a stored polynomial from a place on, all their keys lowered by one number; or their negatives.
ghost use Rattle.std.specs.Prelude.{◌≡◌, ℕ, ◌<◌, ◌≤◌, length};
ghost use Rattle.packed.specs.Terms.{terms_in, term_at};

use crate::view::View;

mod equality;
mod parts;

#[derive(Clone, Copy)]
pub struct Stretch<'a> {
    view: View<'a>,
    from: usize,
    down: u64,
    negative: bool,
    ghost inside: { from ≤ length (terms_in view) },
    ghost above: { (i : ℕ) → from ≤ i → i < length (terms_in view) → down ≤ (term_at (terms_in view) i).key },
}

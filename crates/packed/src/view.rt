// A stored polynomial, lent to be read.
ghost use Rattle.packed.specs.Stored.{is_stored};
ghost use Rattle.std.specs.Prelude.{◌≡◌, true};

mod leading;
mod reads;

#[derive(Clone, Copy)]
pub struct View<'a> {
    cells: &'a [i64],
    ghost stored: { is_stored cells.now ≡ true },
}

// A list of monomials in lent memory, keys and coefficients apart: 8,192 of them at most.
ghost use Rattle.std.specs.Prelude.{◌≡◌, ◌≤◌, length};

mod cells;

// A step of a division adds up two products of 64 by 64 monomials.
pub const ROOM: usize = 8192;

// Lent memory holds numbers alone and its length is fixed, so a list takes two lent slices, with their count beside them.
#[derive(Drop)]
pub struct Wide<'a> {
    keys: &'a mut [i64],
    coefficients: &'a mut [i64],
    len: usize,
    ghost within: { len ≤ 8192 },
    ghost enough: { length keys.now ≡ 8192 },
    ghost alike: { length coefficients.now ≡ 8192 },
}

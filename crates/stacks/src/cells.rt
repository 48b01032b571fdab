// Numbers written into lent memory and read from it.
ghost use Rattle.std.specs.Prelude.{◌≡◌, ◌+◌, ◌≤◌, length, pos, slice_index_or};
ghost use Rattle.field.specs.Sign.{sign_of};
ghost use Rattle.stacks.specs.Written.{Put, part};

use arena::record::number_at;
use field::sign::Sign;

// Writes these numbers from a place on.
pub fn put(cells: &mut [i64], at: usize, values: &[i64])
    requires { at + length values.now ≤ length cells.old }
    ensures { Put at values.now cells.old cells.new }
{
    cells[at..at + values.len()].copy_from_slice(values);
}

// So many numbers from a place on, or as many of them as there are.
pub fn run_of(cells: &[i64], at: usize, width: usize) -> &[i64]
    ensures { result.now ≡ part width at cells.now }
{
    let rest = cells.get(at..).unwrap_or(&[]);
    rest.get(..width).unwrap_or(rest)
}

// The sign of the number at a place.
pub fn sign_at(cells: &[i64], i: usize) -> Sign
    ensures { result ≡ sign_of (slice_index_or cells.now i (pos 0)) }
{
    Sign::of(number_at(cells, i))
}

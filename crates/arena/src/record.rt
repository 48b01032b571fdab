// Values that are stored as a few numbers each.
ghost use Rattle.std.specs.Prelude.{◌≡◌, ℕ, ◌^◌, ◌<◌, List, length, ℤ, pos, slice_index_or};

pub trait Record: Copy {
    // How many numbers a value takes.
    const WIDTH: usize;

    ghost WIDTH: { ℕ };

    // The value that these numbers stand for.
    ghost value_of: { List ℤ → Self };

    // Reads a value; numbers that are missing count as zero.
    fn decoded(cells: &[i64]) -> Self
        ensures { result ≡ value_of cells.now };

    // Writes the value as numbers that read back.
    fn encode(self, cells: &mut [i64])
        requires { length cells.old ≡ WIDTH }
        ensures { value_of cells.new ≡ self };

    // So the place of every value in an array is a `usize`.
    ghost narrow: { WIDTH < 2 ^ 32 };
}

// The number at a place; 0 beyond the last.
pub fn number_at(cells: &[i64], i: usize) -> i64
    ensures { result ≡ slice_index_or cells.now i (pos 0) }
{
    cells.get(i).copied().unwrap_or(0)
}

// The machine's arrays over lent numbers. A value that is written reads back, and all others read as before.
ghost use Rattle.std.specs.Prelude.{◌≡◌, ◌+◌, ◌*◌, ◌≤◌, length};
ghost use Rattle.stacks.specs.Written.{Written};
ghost use Rattle.stacks.specs.Values.{value_in};

use crate::cells::run_of;
use arena::record::Record;

// The i-th value of an array; numbers beyond the last count as zero.
pub fn read<T: Record>(cells: &[i64], i: u16) -> T
    ensures { result ≡ value_in T.WIDTH T.value_of cells.now i }
{
    T::decoded(run_of(cells, T::WIDTH * i as usize, T::WIDTH))
}

pub fn write<T: Record>(cells: &mut [i64], i: u16, value: T)
    requires { T.WIDTH * i + T.WIDTH ≤ length cells.old }
    ensures { Written (value_in T.WIDTH T.value_of) i value cells.old cells.new }
{
    let at = T::WIDTH * i as usize;
    value.encode(&mut cells[at..at + T::WIDTH]);
}

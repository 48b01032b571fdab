// The tables of a chain, the innermost first.
ghost use Rattle.std.specs.Prelude.{◌≡◌, ◌≤◌, length};

use crate::cell::Cell;
use crate::stage::Stage;

// What each makes its rows by, which is only read, and what it keeps between two of them. Cells that belong to no stage stay as they are.
#[derive(Drop)]
pub struct Tables<'a> {
    pub stages: &'a [Stage],
    pub cells: &'a mut [Cell],
    pub ghost paired: { length stages.now ≤ length cells.now },
}

impl<'a> Tables<'a> {
    pub fn new(stages: &'a [Stage], cells: &'a mut [Cell]) -> Tables<'a>
        requires { length stages.now ≤ length cells.old }
        ensures stages { result.stages ≡ stages.entry }
        ensures lent { result.cells ≡ cells.entry }
    {
        Tables { stages, cells }
    }
}

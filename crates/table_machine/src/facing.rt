// Where the machine looks at a polynomial, with so many questions open.
ghost use Rattle.table_machine.specs.Fitting.{Fitting};

use stacks::marks::Marks;

mod steps;

// That something is ahead and may be looked at is asked by each step and isn't a fact of the type: `outlook` takes a Facing where it may not be so, and says `Look` where it is.
#[derive(Clone, Copy)]
pub struct Facing {
    pub marks: Marks,
    pub pending: u16,
    pub ghost fits: { Fitting marks },
}

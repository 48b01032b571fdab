// The machine that makes the tree of a table: its memory, five arrays over lent numbers. Every slot holds a polynomial in one variable and `others` more.
ghost use Rattle.std.specs.Prelude.{◌<◌};
ghost use Rattle.stacks.specs.Memories.{AllHold};
ghost use Rattle.table_machine.specs.OneProof.{AllHold-prop};

use packed::variables::Variables;

mod look;
mod reads;
mod reals;
mod settle;

// How long the arrays are is asked where they are written: what is only read may lie in arrays of any length.
#[derive(Drop)]
pub struct Machine<'a> {
    pub others: Variables,
    pub slots: &'a mut [i64],
    pub lefts: &'a mut [i64],
    pub facts: &'a mut [i64],
    pub frames: &'a mut [i64],
    pub questions: &'a mut [i64],
    pub ghost few: { others.count < 4 },
    pub ghost hold: { AllHold others.count slots.now } by { AllHold-prop others.count slots.now },
}

// Polynomials in slots, each in one variable and `others` more, lent to be read.
ghost use Rattle.std.specs.Prelude.{◌<◌};
ghost use Rattle.stacks.specs.Memories.{AllHold};
ghost use Rattle.table_machine.specs.OneProof.{AllHold-prop};

use packed::variables::Variables;

mod facts;
mod fronts;

#[derive(Clone, Copy)]
pub struct Polynomials<'a> {
    pub others: Variables,
    pub slots: &'a [i64],
    pub ghost few: { others.count < 4 },
    pub ghost hold: { AllHold others.count slots.now } by { AllHold-prop others.count slots.now },
}

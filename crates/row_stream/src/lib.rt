// Chains of tables that take rows of signs one by one, and hand them on to a sink.
#![tactic(auto)]

pub mod at_most;
pub mod cell;
pub mod chain;
pub mod leaving;
pub mod looks;
pub mod signs;
pub mod sink;
pub mod stage;
pub mod tables;
pub mod taken;
pub mod tally;

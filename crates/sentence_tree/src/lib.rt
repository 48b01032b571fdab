// A sentence's tree of questions, from its words.
#![tactic(auto)]

pub mod operation;
pub mod term;

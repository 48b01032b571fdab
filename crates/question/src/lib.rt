// Trees of questions in lent memory.
#![tactic(auto)]

pub mod collect;
pub mod follow;
pub mod questions;
pub mod tree;

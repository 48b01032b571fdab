// The machine that makes the tree of a table, over lent memory.
#![tactic(auto)]

pub mod arrays;
pub mod below;
pub mod facing;
pub mod front;
pub mod laws;
pub mod outlook;
pub mod polynomials;

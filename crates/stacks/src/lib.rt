// The arrays of the table machine: typed cells over lent numbers.
#![tactic(auto)]

pub mod arrays;
pub mod cells;
pub mod laws;
pub mod marks;
pub mod slots;

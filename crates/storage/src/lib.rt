// Polynomials are stored where they are modest, and refused where they aren't; remainders, of which each step is checked.
#![tactic(auto)]

pub mod laws;
pub mod modest;
pub mod pack;
pub mod remainder;
pub mod span;

// Polynomials on the way: lists of monomials whose coefficients may pass 2^27, before it is checked whether they are modest.
#![tactic(auto)]

pub mod merge;
pub mod operations;
pub mod scratch;
pub mod wide;

// Stored polynomials: each monomial is one number, its coefficient times 2^20 and its key, and the keys rise.
#![tactic(auto)]

pub mod equality;
pub mod monomials;
pub mod stretch;
pub mod term;
pub mod variables;
pub mod view;

// Signs, real closed fields, and sentences about them. Rests on nothing but std.
#![tactic(auto)]

pub mod real_closed;
pub mod sign;

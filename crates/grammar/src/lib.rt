// Sentences as texts: what a text reads as, and what is known of it.
#![tactic(auto)]

pub mod fault;
pub mod laws;
pub mod refusal;
pub mod relation;
pub mod word;

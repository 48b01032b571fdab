// Sentences as words: which slices of numbers are sentences, and a reader of their parts.
#![tactic(auto)]

pub mod answer;
pub mod kind;
pub mod quantifier;
pub mod reader;
pub mod sentence;

// Sentences without quantifiers: read, evaluated in whole numbers, and answered.
#![tactic(auto)]

pub mod ground;
pub mod number;
pub mod outline;
pub mod verdict;

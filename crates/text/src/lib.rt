// The reader of texts: one pass, a method for each level of binding.
#![tactic(auto)]

pub mod bound;
pub mod character;
pub mod claim;
pub mod draft;
pub mod formula;
pub mod prefix;
pub mod read;
pub mod row;
pub mod sentence;
pub mod sheet;
pub mod source;
pub mod term;

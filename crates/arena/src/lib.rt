// Lent numbers as an arena: what is stored lies below a mark, is never changed, and goes when the mark is taken back. And values as a few numbers each.
#![tactic(auto)]

pub mod arena;
pub mod record;

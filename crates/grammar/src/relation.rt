// The signs of comparison between two terms.
#[derive(Clone, Copy, PartialEq, Eq, Debug)]
pub enum Relation {
    Below,
    AtMost,
    Equal,
    Unequal,
    Above,
    AtLeast,
}

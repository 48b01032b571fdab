// The answer to a sentence, or to a tree of questions.

#[derive(Clone, Copy, PartialEq, Eq, Debug)]
pub enum Answer {
    Yes,
    No,
    GivenUp,
}

// A formula that has been read; `None` in place of one says that a term was read.
#[derive(Clone, Copy, PartialEq, Eq, Debug)]
pub struct Claim {
    // whether an arrow has been read behind it
    pub arrow: bool,
}

// Where a stored polynomial lies in an arena.

#[derive(Clone, Copy)]
pub struct Span {
    pub from: usize,
    pub count: usize,
}

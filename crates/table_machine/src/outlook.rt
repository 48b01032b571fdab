// What comes next in the run that counts.

// A real polynomial of the table: its place there, that among the real ones, and its degree.
#[derive(Clone, Copy)]
pub struct Top {
    pub index: u16,
    pub place: u16,
    pub degree: u64,
}

#[derive(Clone, Copy)]
pub enum Outlook {
    Look,
    GiveUp,
    Divide(Top),
}

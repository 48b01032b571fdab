// A word of small letters, at most eight, in fixed memory.
#[derive(Clone, Copy, PartialEq, Eq, Debug)]
pub struct Word {
    // zeros stand behind its last letter
    pub letters: [u8; 8],
    pub length: usize,
}

// How far a text is read, and the words written for it.
// It is apart from Source since the text and its names stay while these change, so that a contract speaks of one text; and the depth is a parameter since it falls with each level and is as before behind it.
use crate::sheet::Sheet;

pub struct Draft {
    // how many characters stand before the one in front
    pub at: usize,
    pub sheet: Sheet,
}

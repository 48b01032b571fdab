// Which slices of words are sentences.
ghost use Rattle.std.specs.Prelude.{◌≡◌};
ghost use Rattle.words.specs.Words.{is_sentence, is_there, whole, sentence_at};

use crate::reader::Reader;

// How many words a sentence may have.
pub const LONGEST: usize = 1024;

pub fn is_sentence(words: &[i64]) -> bool
    ensures { result ≡ is_sentence words.now }
{
    words.len() <= LONGEST && reads_whole(words)
}

// Whether these words, however many, read as a sentence to the last one.
fn reads_whole(words: &[i64]) -> bool
    ensures { result ≡ is_there (whole (sentence_at words.now)) }
{
    let mut reader = Reader { rest: words };
    reader.skip_sentence().is_ok() && reader.rest.is_empty()
}

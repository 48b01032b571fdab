// The answer to a text of words, and the line that says it.
ghost use Rattle.std.specs.Prelude.{◌≡◌, IfOk, Some};
ghost use Rattle.word_text.specs.Answer.{verdict_of_text, line_of};

use crate::scan::{ScanError, numbers};
use ground::ground::verdict;
use ground::verdict::{Refusal, Verdict};
use std::alloc::{AllocError, Global};
use std::fmt;
use words::answer::Answer;

// What is said of a text of words; anything that is no number makes it no sentence.
pub fn verdict_of_text(heap: Global, text: &[u8]) -> Result<Verdict, AllocError>
    ensures { IfOk result (λ v. v ≡ verdict_of_text text.now) }
{
    match numbers(heap, text) {
        Ok(words) => Ok(verdict(&words)),
        Err(ScanError::NotNumbers) => Ok(Err(Refusal::NotASentence)),
        Err(ScanError::OutOfMemory(error)) => Err(error),
    }
}

// The line that says it.
#[derive(Clone, Copy)]
pub struct Line(pub Verdict);

impl Line {
    pub fn text(&self) -> &'static str
        ensures { result.now ≡ line_of self.now.0 }
    {
        match self.0 {
            Ok(Answer::Yes) => "holds",
            Ok(Answer::No) => "fails",
            Ok(Answer::GivenUp) => "given up",
            Err(Refusal::NotASentence) => "no 3",
            Err(Refusal::NotDecided) => "not decided yet",
        }
    }
}

impl fmt::Display for Line {
    ghost output = { λ line. Some (line_of line.0) };

    fn fmt<W: fmt::Write>(&self, f: &mut fmt::Formatter<W>) -> fmt::Result {
        f.write_str(self.text())
    }
}

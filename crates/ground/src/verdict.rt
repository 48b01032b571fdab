// What is said of a slice of words: an answer, or why there is none.
ghost use Rattle.std.specs.Prelude.{◌≡◌};
ghost use Rattle.ground.specs.declared.verdict.Refusal.{Refusal};

use words::answer::Answer;
use words::reader::NotASentence;

#[derive(Clone, Copy, PartialEq, Eq, Debug)]
pub enum Refusal {
    NotASentence,
    // it has quantifiers
    NotDecided,
}

pub type Verdict = Result<Answer, Refusal>;

impl From<NotASentence> for Refusal {
    ghost from_gives = { λ _ refusal. refusal ≡ Refusal.NotASentence };

    fn from(_error: NotASentence) -> Refusal {
        Refusal::NotASentence
    }
}

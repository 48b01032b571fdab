// Whether something is asked to hold in some case or in every one, and the answer over all of them.
ghost use Rattle.std.specs.Prelude.{◌≡◌, Some, option_map};
ghost use Rattle.std.specs.Result.{result_ok};
ghost use Rattle.words.specs.Joined.{before_of, join_of, settled_of};
ghost use Rattle.words.specs.Quantifier.{over_all, quantifier_word};
ghost use Rattle.words.specs.Words.{quantifier_of};

use crate::answer::Answer;
use crate::reader::NotASentence;

#[derive(Clone, Copy, PartialEq, Eq, Debug)]
pub enum Quantifier {
    Exists,
    ForAll,
}

impl Quantifier {
    // The answer before the first case.
    pub fn first_answer(self) -> Answer
        ensures { result ≡ before_of self }
    {
        match self {
            Quantifier::Exists => Answer::No,
            Quantifier::ForAll => Answer::Yes,
        }
    }

    // The answer so far, with one more case's.
    pub fn join(self, a: Answer, b: Answer) -> Answer
        ensures { result ≡ join_of self a b }
    {
        if self.is_settled(a) || (a == Answer::GivenUp && !self.is_settled(b)) {
            a
        } else {
            b
        }
    }

    // No further case changes the answer.
    pub fn is_settled(self, a: Answer) -> bool
        ensures { result ≡ settled_of self a }
    {
        match self {
            Quantifier::Exists => a == Answer::Yes,
            Quantifier::ForAll => a == Answer::No,
        }
    }
}

// The quantifier that this word stands for, if it stands for one.
impl TryFrom<i64> for Quantifier {
    type Error = NotASentence;

    ghost try_from_gives = { λ word outcome. option_map over_all (result_ok outcome) ≡ quantifier_of word };

    fn try_from(word: i64) -> Result<Quantifier, NotASentence> {
        match word {
            0 => Ok(Quantifier::Exists),
            1 => Ok(Quantifier::ForAll),
            _ => Err(NotASentence),
        }
    }
}

// The word that stands for it.
impl From<Quantifier> for i64 {
    ghost from_gives = { λ quantifier word. (word ≡ quantifier_word quantifier) × (quantifier_of word ≡ Some (over_all quantifier)) };

    fn from(quantifier: Quantifier) -> i64 {
        match quantifier {
            Quantifier::Exists => 0,
            Quantifier::ForAll => 1,
        }
    }
}

// A formula's tree in outline: enough to count its questions and to know where it leads, with no tree made.
ghost use Rattle.std.specs.Prelude.{◌≡◌, ◌+◌, ◌*◌};
ghost use Rattle.ground.specs.Outline.{capped, negated, conjoined, compared, concluded};
ghost use Rattle.words.specs.declared.answer.Answer.TheVariants.{Yes, No};

use field::sign::Sign;
use words::answer::Answer;

// With so many questions a tree is given up, so no count goes beyond.
pub const MOST: u32 = 3500;

#[derive(Clone, Copy)]
pub struct Outline {
    pub questions: u32,
    pub yes: u32,
    pub no: u32,
    // the answer that the tree leads to, given up where a number is too large
    pub end: Answer,
}

// base + times * count, up to the most that is counted.
fn weighed(base: u32, times: u32, count: u32) -> u32
    ensures { result ≡ capped (base + times * count) }
{
    times.saturating_mul(count).saturating_add(base).min(MOST)
}

// A comparison whose three ends, for below, at and above zero, are these; one of them is yes.
fn comparison(number: Option<i64>, below: Answer, at: Answer, above: Answer) -> Outline
    ensures { result ≡ compared number below at above 1 2 }
{
    let Some(number) = number else {
        return Outline {
            questions: 0,
            yes: 0,
            no: 0,
            end: Answer::GivenUp,
        };
    };
    let end = match Sign::of(number) {
        Sign::Neg => below,
        Sign::Zero => at,
        Sign::Pos => above,
    };
    Outline {
        questions: 1,
        yes: 1,
        no: 2,
        end,
    }
}

pub fn below_zero(number: Option<i64>) -> Outline
    ensures { result ≡ compared number Yes No No 1 2 }
{
    comparison(number, Answer::Yes, Answer::No, Answer::No)
}

pub fn equals_zero(number: Option<i64>) -> Outline
    ensures { result ≡ compared number No Yes No 1 2 }
{
    comparison(number, Answer::No, Answer::Yes, Answer::No)
}

impl Outline {
    pub fn negation(self) -> Outline
        ensures { result ≡ negated self }
    {
        let end = match self.end {
            Answer::Yes => Answer::No,
            Answer::No => Answer::Yes,
            Answer::GivenUp => Answer::GivenUp,
        };
        Outline {
            questions: self.questions,
            yes: self.no,
            no: self.yes,
            end,
        }
    }

    // The other formula stands where this one says yes.
    pub fn conjunction(self, other: Outline) -> Outline
        ensures { result ≡ conjoined self other }
    {
        let questions = weighed(self.questions, self.yes, other.questions);
        let yes = weighed(0, self.yes, other.yes);
        let no = weighed(self.no, self.yes, other.no);
        let end = match self.end {
            Answer::Yes => other.end,
            Answer::No => Answer::No,
            Answer::GivenUp => Answer::GivenUp,
        };
        Outline {
            questions,
            yes,
            no,
            end,
        }
    }

    pub fn disjunction(self, other: Outline) -> Outline
        ensures { result ≡ negated (conjoined (negated self) (negated other)) }
    {
        self.negation().conjunction(other.negation()).negation()
    }

    // The answer of a whole formula with this outline.
    pub fn answer(self) -> Answer
        ensures { result ≡ concluded self }
    {
        if self.questions >= MOST {
            Answer::GivenUp
        } else {
            self.end
        }
    }
}

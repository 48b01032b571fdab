// What a word says where a formula or a term begins.
ghost use Rattle.std.specs.Prelude.{◌≡◌, Some};
ghost use Rattle.std.specs.Result.{result_ok};
ghost use Rattle.words.specs.Kind.{kind_of, kind_word};

use crate::reader::NotASentence;

#[derive(Clone, Copy, PartialEq, Eq, Debug)]
pub enum Kind {
    BelowZero,
    EqualsZero,
    Not,
    And,
    Or,
    Variable,
    Number,
    Sum,
    Product,
}

// The kind that this word stands for, if it stands for one.
impl TryFrom<i64> for Kind {
    type Error = NotASentence;

    ghost try_from_gives = { λ word outcome. result_ok outcome ≡ kind_of word };

    fn try_from(word: i64) -> Result<Kind, NotASentence> {
        match word {
            1 => Ok(Kind::BelowZero),
            2 => Ok(Kind::EqualsZero),
            3 => Ok(Kind::Not),
            4 => Ok(Kind::And),
            5 => Ok(Kind::Or),
            6 => Ok(Kind::Variable),
            7 => Ok(Kind::Number),
            8 => Ok(Kind::Sum),
            9 => Ok(Kind::Product),
            _ => Err(NotASentence),
        }
    }
}

// The word that stands for it.
impl From<Kind> for i64 {
    ghost from_gives = { λ kind word. (word ≡ kind_word kind) × (kind_of word ≡ Some kind) };

    fn from(kind: Kind) -> i64 {
        match kind {
            Kind::BelowZero => 1,
            Kind::EqualsZero => 2,
            Kind::Not => 3,
            Kind::And => 4,
            Kind::Or => 5,
            Kind::Variable => 6,
            Kind::Number => 7,
            Kind::Sum => 8,
            Kind::Product => 9,
        }
    }
}

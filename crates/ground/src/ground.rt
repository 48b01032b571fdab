// A sentence without quantifiers, read and answered in one pass.
ghost use Rattle.std.specs.Prelude.{◌≡◌};
ghost use Rattle.words.specs.Reading.{outcome, mapped};
ghost use Rattle.words.specs.Words.{term_at, formula_at};
ghost use Rattle.ground.specs.Ground.{number_of, verdict_of};
ghost use Rattle.ground.specs.Outline.{outline_of, concluded_by};

use crate::number::{modest_number, product, sum};
use crate::outline::{Outline, below_zero, equals_zero};
use crate::verdict::{Refusal, Verdict};
use words::kind::Kind;
use words::reader::{DEEPEST, NotASentence, Reader};
use words::sentence::is_sentence;

// What is said of these words.
pub fn verdict(words: &[i64]) -> Verdict
    ensures { result ≡ verdict_of words.now }
{
    if !is_sentence(words) {
        return Err(Refusal::NotASentence);
    }
    let mut reader = Reader { rest: words };
    if reader.count()? != 0 {
        return Err(Refusal::NotDecided);
    }
    verdict_of_body(reader.rest)
}

fn verdict_of_body(body: &[i64]) -> Verdict
    ensures { result ≡ concluded_by (formula_at 1024 0 body.now) }
{
    let outline = formula(&mut Reader { rest: body }, DEEPEST)?;
    Ok(outline.answer())
}

// A term's number, if it is modest.
#[tactic(auto, using(crate::proofs::Values::term_steps))]
fn term(reader: &mut Reader, depth: usize) -> Result<Option<i64>, NotASentence>
    ensures { outcome result reader.new.rest.now ≡ mapped number_of (term_at depth 0 reader.old.rest.now) }
{
    if depth == 0 {
        return Err(NotASentence);
    }
    match reader.kind()? {
        Kind::Number => Ok(modest_number(reader.number()?)),
        Kind::Sum => Ok(sum(term(reader, depth - 1)?, term(reader, depth - 1)?)),
        Kind::Product => Ok(product(term(reader, depth - 1)?, term(reader, depth - 1)?)),
        Kind::Variable | Kind::BelowZero | Kind::EqualsZero | Kind::Not | Kind::And | Kind::Or =>
            Err(NotASentence),
    }
}

#[tactic(auto, using(crate::proofs::Values::formula_steps))]
fn formula(reader: &mut Reader, depth: usize) -> Result<Outline, NotASentence>
    ensures { outcome result reader.new.rest.now ≡ mapped outline_of (formula_at depth 0 reader.old.rest.now) }
{
    if depth == 0 {
        return Err(NotASentence);
    }
    match reader.kind()? {
        Kind::BelowZero => Ok(below_zero(term(reader, depth - 1)?)),
        Kind::EqualsZero => Ok(equals_zero(term(reader, depth - 1)?)),
        Kind::Not => Ok(formula(reader, depth - 1)?.negation()),
        Kind::And => Ok(formula(reader, depth - 1)?.conjunction(formula(reader, depth - 1)?)),
        Kind::Or => Ok(formula(reader, depth - 1)?.disjunction(formula(reader, depth - 1)?)),
        Kind::Variable | Kind::Number | Kind::Sum | Kind::Product => Err(NotASentence),
    }
}

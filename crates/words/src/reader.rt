// A reader of words: it holds what is still to be read, and each method takes its part off the front.
ghost use Rattle.std.specs.Prelude.{◌≡◌};
ghost use Rattle.words.specs.Kind.{kind_of};
ghost use Rattle.words.specs.Quantifier.{over_all};
ghost use Rattle.words.specs.Reading.{outcome, mapped, skipped, meant, word_at};
ghost use Rattle.words.specs.Words.{variable_of, number_of, quantifier_of, count_of, term_at, formula_at, quantifiers_at, sentence_at};

use crate::kind::Kind;
use crate::quantifier::Quantifier;

// How deep a sentence's formula may be nested.
pub const DEEPEST: usize = 1024;

// The words are no sentence.
#[derive(Clone, Copy, PartialEq, Eq, Debug)]
pub struct NotASentence;

#[derive(Drop)]
pub struct Reader<'a> {
    pub rest: &'a [i64],
}

impl Reader<'_> {
    // The next word, whatever it is.
    pub fn word(&mut self) -> Result<i64, NotASentence>
        ensures { outcome result self.new.rest.now ≡ word_at self.old.rest.now }
    {
        let [first, rest @ ..] = self.rest else {
            return Err(NotASentence);
        };
        self.rest = rest;
        Ok(*first)
    }

    // What begins here.
    pub fn kind(&mut self) -> Result<Kind, NotASentence>
        ensures { outcome result self.new.rest.now ≡ meant kind_of self.old.rest.now }
    {
        let word = self.word()?;
        Kind::try_from(word)
    }

    // A variable, one of so many.
    pub fn variable(&mut self, variables: u8) -> Result<u8, NotASentence>
        ensures { outcome result self.new.rest.now ≡ meant (variable_of variables) self.old.rest.now }
    {
        match u8::try_from(self.word()?) {
            Ok(index) if index < variables => Ok(index),
            _ => Err(NotASentence),
        }
    }

    // A number of a term.
    pub fn number(&mut self) -> Result<i64, NotASentence>
        ensures { outcome result self.new.rest.now ≡ meant number_of self.old.rest.now }
    {
        match self.word()? {
            number @ -65535..=65535 => Ok(number),
            _ => Err(NotASentence),
        }
    }

    // A quantifier.
    pub fn quantifier(&mut self) -> Result<Quantifier, NotASentence>
        ensures { mapped over_all (outcome result self.new.rest.now) ≡ meant quantifier_of self.old.rest.now }
    {
        let word = self.word()?;
        Quantifier::try_from(word)
    }

    // How many quantifiers there are.
    pub fn count(&mut self) -> Result<u8, NotASentence>
        ensures { outcome result self.new.rest.now ≡ meant count_of self.old.rest.now }
    {
        match u8::try_from(self.word()?) {
            Ok(count) if count <= 4 => Ok(count),
            _ => Err(NotASentence),
        }
    }

    // Passes over a term about so many variables, nested at most so deep.
    // Depth and variables stay two numbers: at each level one falls and one stays, and a struct would only be taken apart. Nor are the variables a field:
    // a Reader reads their count itself, and over sentences without quantifiers there are none.
    #[tactic(auto, using(crate::proofs::Words::term_steps))]
    pub fn skip_term(&mut self, depth: usize, variables: u8) -> Result<(), NotASentence>
        ensures { outcome result self.new.rest.now ≡ mapped skipped (term_at depth variables self.old.rest.now) }
    {
        if depth == 0 {
            return Err(NotASentence);
        }
        match self.kind()? {
            Kind::Variable => {
                self.variable(variables)?;
                Ok(())
            }
            Kind::Number => {
                self.number()?;
                Ok(())
            }
            Kind::Sum | Kind::Product => {
                self.skip_term(depth - 1, variables)?;
                self.skip_term(depth - 1, variables)
            }
            Kind::BelowZero | Kind::EqualsZero | Kind::Not | Kind::And | Kind::Or => Err(
                NotASentence,
            ),
        }
    }

    // Passes over a formula about so many variables, nested at most so deep.
    #[tactic(auto, using(crate::proofs::Words::formula_steps))]
    pub fn skip_formula(&mut self, depth: usize, variables: u8) -> Result<(), NotASentence>
        ensures { outcome result self.new.rest.now ≡ mapped skipped (formula_at depth variables self.old.rest.now) }
    {
        if depth == 0 {
            return Err(NotASentence);
        }
        match self.kind()? {
            Kind::BelowZero | Kind::EqualsZero => self.skip_term(depth - 1, variables),
            Kind::Not => self.skip_formula(depth - 1, variables),
            Kind::And | Kind::Or => {
                self.skip_formula(depth - 1, variables)?;
                self.skip_formula(depth - 1, variables)
            }
            Kind::Variable | Kind::Number | Kind::Sum | Kind::Product => Err(NotASentence),
        }
    }

    // Passes over so many quantifiers.
    #[tactic(auto, using(crate::proofs::Words::quantifier_steps))]
    pub fn skip_quantifiers(&mut self, count: u8) -> Result<(), NotASentence>
        ensures { outcome result self.new.rest.now ≡ mapped skipped (quantifiers_at count self.old.rest.now) }
    {
        for _ in 0..count {
            self.quantifier()?;
        }
        Ok(())
    }

    // Passes over a sentence: how many quantifiers, these, and a formula about as many variables.
    pub fn skip_sentence(&mut self) -> Result<(), NotASentence>
        ensures { outcome result self.new.rest.now ≡ mapped skipped (sentence_at self.old.rest.now) }
    {
        let count = self.count()?;
        self.skip_quantifiers(count)?;
        self.skip_formula(DEEPEST, count)
    }
}

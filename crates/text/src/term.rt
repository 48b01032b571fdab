// Terms, a method for each level of binding: each writes its words, an operator in front of what it joins.
ghost use Rattle.std.specs.Prelude.{◌≡◌, slice_index};
ghost use Rattle.std.specs.Str.{bytes_eq};
ghost use Rattle.grammar.specs.Characters.{is_reserved};
ghost use Rattle.grammar.specs.Nesting.{nest};
ghost use Rattle.grammar.specs.Reader.{run};
ghost use Rattle.grammar.specs.Terms.{named, grouped, primary_of, is_exponent, raised, factor, times_next, times, product, taken, added, summand_of, is_summand_sign, plus, negated, leading_of, sum};
ghost use Rattle.text.specs.Reads.{WritesTerm, ExtendsTerm, WritesSum, ExtendsSum, ExtendsSummand};

use crate::character::{is_digit, is_letter};
use crate::draft::Draft;
use crate::source::{LONGEST, Source, position};
use grammar::fault::Fault;
use grammar::word::Word;
use words::kind::Kind;

// Whether a word has these letters.
pub fn is_word(word: Word, letters: &[u8; 8]) -> bool
    ensures { result ≡ bytes_eq word.letters letters.now }
{
    word.letters == *letters
}

const RESERVED: [[u8; 8]; 5] = [
    *b"every\0\0\0",
    *b"some\0\0\0\0",
    *b"and\0\0\0\0\0",
    *b"or\0\0\0\0\0\0",
    *b"not\0\0\0\0\0",
];

// Whether a word is one of the language.
pub fn is_reserved(word: Word) -> bool
    ensures { result ≡ is_reserved word }
{
    RESERVED.contains(&word.letters)
}

fn is_exponent(c: u8) -> bool
    ensures { result ≡ is_exponent c }
{
    matches!(c, b'1'..=b'8')
}

// Whether a summand more begins like this.
fn begins_summand(c: u8) -> bool
    ensures { result ≡ is_summand_sign c }
{
    matches!(c, b'+' | b'-')
}

impl Source<'_> {
    // A word that must be a name.
    pub fn named(&self, draft: &mut Draft, word: Word) -> Result<(), Fault>
        ensures { WritesTerm self.now (named self.now.names.now word) result draft.old draft.new }
    {
        if is_reserved(word) {
            return Err(Fault::Unfit);
        }
        let Some(i) = position(self.names, word) else {
            return Err(Fault::Wrong(word.length));
        };
        self.blanks(&mut draft.at);
        draft.sheet.put_kind(Kind::Variable);
        draft.sheet.put(i as i64);
        Ok(())
    }

    // A sum in parentheses.
    #[cycle(term_levels)]
    fn group(&self, draft: &mut Draft, depth: usize) -> Result<(), Fault>
        ensures { WritesTerm self.now (grouped (nest self.now.names.now depth)) result draft.old draft.new }
    {
        self.sign(&mut draft.at, b"(")?;
        if depth == 0 {
            return Err(Fault::Deep);
        }
        self.sum(draft, depth - 1, false)?;
        self.sign(&mut draft.at, b")")
    }

    // A name, a number, or a sum in parentheses.
    #[cycle(term_levels)]
    pub fn primary(&self, draft: &mut Draft, depth: usize) -> Result<(), Fault>
        ensures { WritesTerm self.now (primary_of self.now.names.now (nest self.now.names.now depth) (slice_index self.now.text.now draft.old.at)) result draft.old draft.new }
    {
        match self.front(draft.at) {
            c if is_letter(c) => {
                let word = self.letters(&mut draft.at)?;
                self.named(draft, word)
            }
            c if is_digit(c) => {
                let number = self.number(&mut draft.at);
                draft.sheet.put_kind(Kind::Number);
                draft.sheet.put(i64::from(number));
                Ok(())
            }
            _ => self.group(draft, depth),
        }
    }

    #[cycle(term_levels)]
    pub fn factor(&self, draft: &mut Draft, depth: usize) -> Result<(), Fault>
        ensures { WritesTerm self.now (factor self.now.names.now (nest self.now.names.now depth)) result draft.old draft.new }
    {
        let from = draft.sheet.count;
        self.primary(draft, depth)?;
        self.raised(draft, from)
    }

    // `^` with a digit from 1 to 8, at most once.
    pub fn raised(&self, draft: &mut Draft, from: usize) -> Result<(), Fault>
        ensures { ExtendsTerm self.now raised result from draft.old draft.new }
    {
        if self.front(draft.at) != b'^' {
            return Ok(());
        }
        self.sign(&mut draft.at, b"^")?;
        let digit = self.front(draft.at);
        if !is_exponent(digit) {
            return Err(Fault::Unfit);
        }
        self.pass(&mut draft.at);
        self.blanks(&mut draft.at);
        draft.sheet.raise(from, digit - b'0');
        Ok(())
    }

    // A factor more.
    #[cycle(term_levels)]
    fn times_next(&self, draft: &mut Draft, depth: usize, from: usize) -> Result<(), Fault>
        ensures { ExtendsTerm self.now (times_next self.now.names.now (nest self.now.names.now depth)) result from draft.old draft.new }
    {
        self.sign(&mut draft.at, b"*")?;
        self.factor(draft, depth)?;
        draft.sheet.insert_kind(from, Kind::Product);
        Ok(())
    }

    // The factors behind a first one.
    #[cycle(term_levels)]
    pub fn times(&self, draft: &mut Draft, depth: usize, from: usize) -> Result<(), Fault>
        ensures { ExtendsTerm self.now (times self.now.names.now (nest self.now.names.now depth)) result from draft.old draft.new }
    {
        for _turn in 0..LONGEST {
            if self.front(draft.at) != b'*' {
                return Ok(());
            }
            self.times_next(draft, depth, from)?;
        }
        Ok(())
    }

    #[cycle(term_levels)]
    pub fn product(&self, draft: &mut Draft, depth: usize) -> Result<(), Fault>
        ensures { WritesTerm self.now (product self.now.names.now (nest self.now.names.now depth)) result draft.old draft.new }
    {
        let from = draft.sheet.count;
        self.factor(draft, depth)?;
        self.times(draft, depth, from)
    }

    // What is taken away, behind a minus.
    #[cycle(term_levels)]
    fn taken(&self, draft: &mut Draft, depth: usize, from: usize) -> Result<(), Fault>
        ensures { ExtendsSummand self.now (taken self.now.names.now (nest self.now.names.now depth)) result from draft.old draft.new }
    {
        self.blanks(&mut draft.at);
        let middle = draft.sheet.count;
        self.product(draft, depth)?;
        draft.sheet.negate(middle);
        draft.sheet.insert_kind(from, Kind::Sum);
        Ok(())
    }

    // What is added.
    #[cycle(term_levels)]
    fn added(&self, draft: &mut Draft, depth: usize, from: usize) -> Result<(), Fault>
        ensures { ExtendsSummand self.now (added self.now.names.now (nest self.now.names.now depth)) result from draft.old draft.new }
    {
        self.sign(&mut draft.at, b"+")?;
        self.product(draft, depth)?;
        draft.sheet.insert_kind(from, Kind::Sum);
        Ok(())
    }

    // A summand more, or the arrow that ends the sum.
    #[cycle(term_levels)]
    fn plus_next(
        &self,
        draft: &mut Draft,
        depth: usize,
        may_arrow: bool,
        from: usize,
    ) -> Result<bool, Fault>
        ensures { ExtendsSum self.now (λ t. summand_of self.now.names.now (nest self.now.names.now depth) may_arrow t (slice_index self.now.text.now draft.old.at)) result from draft.old draft.new }
    {
        if self.front(draft.at) == b'+' {
            self.added(draft, depth, from)?;
            return Ok(false);
        }
        self.pass(&mut draft.at);
        if may_arrow && self.front(draft.at) == b'>' {
            self.sign(&mut draft.at, b">")?;
            return Ok(true);
        }
        self.taken(draft, depth, from)?;
        Ok(false)
    }

    // The summands behind a first one; whether an arrow has been read behind them.
    // Whether an arrow may end the sum is a bool, here and in what follows: an enum would be turned into the definition's bool in each clause.
    #[cycle(term_levels)]
    pub fn plus(
        &self,
        draft: &mut Draft,
        depth: usize,
        may_arrow: bool,
        from: usize,
    ) -> Result<bool, Fault>
        ensures { ExtendsSum self.now (plus self.now.names.now (nest self.now.names.now depth) may_arrow) result from draft.old draft.new }
    {
        for _turn in 0..LONGEST {
            if !begins_summand(self.front(draft.at)) {
                return Ok(false);
            }
            if self.plus_next(draft, depth, may_arrow, from)? {
                return Ok(true);
            }
        }
        Ok(false)
    }

    // A minus in front of a product.
    #[cycle(term_levels)]
    pub fn negated(&self, draft: &mut Draft, depth: usize) -> Result<(), Fault>
        ensures { WritesTerm self.now (negated (nest self.now.names.now depth)) result draft.old draft.new }
    {
        self.sign(&mut draft.at, b"-")?;
        if depth == 0 {
            return Err(Fault::Deep);
        }
        let from = draft.sheet.count;
        self.product(draft, depth - 1)?;
        draft.sheet.negate(from);
        Ok(())
    }

    // A first product, perhaps with a minus in front.
    #[cycle(term_levels)]
    fn leading(&self, draft: &mut Draft, depth: usize) -> Result<(), Fault>
        ensures { WritesTerm self.now (leading_of self.now.names.now (nest self.now.names.now depth) (slice_index self.now.text.now draft.old.at)) result draft.old draft.new }
    {
        if self.front(draft.at) == b'-' {
            self.negated(draft, depth)
        } else {
            self.product(draft, depth)
        }
    }

    // A sum; whether an arrow has been read behind it, which ends it.
    #[cycle(term_levels)]
    pub fn sum(&self, draft: &mut Draft, depth: usize, may_arrow: bool) -> Result<bool, Fault>
        ensures { WritesSum self.now (sum self.now.names.now (nest self.now.names.now depth) may_arrow) result draft.old draft.new }
    {
        let from = draft.sheet.count;
        self.leading(draft, depth)?;
        self.plus(draft, depth, may_arrow, from)
    }
}

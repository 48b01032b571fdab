// A text with the names that it quantifies, and the readers of its words, each from a place on.
ghost use Rattle.std.specs.Prelude.{◌≡◌, ◌<◌, length, Some, None, slice_index};
ghost use Rattle.grammar.specs.Reader.{Read, next, run};
ghost use Rattle.grammar.specs.Tokens.{blanks, exactly, sign, word_end, keyword, letters, letters_on, number, digits, position};
ghost use Rattle.text.specs.Outcome.{outcome_of};

use crate::character::{is_blank, is_digit, is_letter};
use grammar::fault::Fault;
use grammar::word::Word;

// How many characters a text may have, and so how many turns a loop can take: the definitions read by as many turns, and no count is used.
pub const LONGEST: usize = 65536;

// The largest number that a text may have.
pub const LARGEST: u32 = 65535;

#[derive(Clone, Copy)]
pub struct Source<'a> {
    pub text: &'a [u8],
    // the innermost first
    pub names: &'a [Word],
}

impl Source<'_> {
    // The character in front, 0 behind the end.
    pub fn front(&self, at: usize) -> u8
        ensures { result ≡ slice_index self.now.text.now at }
    {
        self.text.get(at).copied().unwrap_or(0)
    }

    pub fn pass(&self, at: &mut usize)
        ensures { at.new ≡ next self.now.text.now at.old }
    {
        if *at < self.text.len() {
            *at += 1;
        }
    }

    pub fn blanks(&self, at: &mut usize)
        ensures { run blanks self.now.text.now at.old ≡ Read tt at.new }
    {
        for _turn in 0..LONGEST {
            if !is_blank(self.front(*at)) {
                return;
            }
            self.pass(at);
        }
    }

    // Just these characters.
    pub fn exactly(&self, at: &mut usize, characters: &[u8]) -> Result<(), Fault>
        ensures { run (exactly characters.now) self.now.text.now at.old ≡ outcome_of result at.new }
    {
        for c in characters {
            if self.front(*at) != *c {
                return Err(Fault::Unfit);
            }
            self.pass(at);
        }
        Ok(())
    }

    pub fn sign(&self, at: &mut usize, characters: &[u8]) -> Result<(), Fault>
        ensures { run (sign characters.now) self.now.text.now at.old ≡ outcome_of result at.new }
    {
        self.exactly(at, characters)?;
        self.blanks(at);
        Ok(())
    }

    // A word ends where no letter follows.
    pub fn word_end(&self, at: usize) -> Result<(), Fault>
        ensures { run word_end self.now.text.now at ≡ outcome_of result at }
    {
        if is_letter(self.front(at)) {
            Err(Fault::Unfit)
        } else {
            Ok(())
        }
    }

    pub fn keyword(&self, at: &mut usize, characters: &[u8]) -> Result<(), Fault>
        ensures { run (keyword characters.now) self.now.text.now at.old ≡ outcome_of result at.new }
    {
        self.exactly(at, characters)?;
        self.word_end(*at)?;
        self.blanks(at);
        Ok(())
    }

    // The letters from here on, at most eight.
    fn letters_on(&self, at: &mut usize) -> Word
        ensures { run letters_on self.now.text.now at.old ≡ Read result at.new }
    {
        let mut letters = [0; 8];
        let mut length = 0;
        for letter in &mut letters {
            let c = self.front(*at);
            if !is_letter(c) {
                break;
            }
            self.pass(at);
            *letter = c;
            length += 1;
        }
        Word { letters, length }
    }

    // One to eight letters.
    pub fn letters(&self, at: &mut usize) -> Result<Word, Fault>
        ensures { run letters self.now.text.now at.old ≡ outcome_of result at.new }
    {
        if !is_letter(self.front(*at)) {
            return Err(Fault::Unfit);
        }
        let word = self.letters_on(at);
        self.word_end(*at)?;
        Ok(word)
    }

    // The digits from here on that make a number within 65,535, at most five.
    fn digits(&self, at: &mut usize) -> u32
        ensures { run digits self.now.text.now at.old ≡ Read result at.new }
    {
        let mut number: u32 = 0;
        for _turn in 0..5usize {
            let c = self.front(*at);
            if !is_digit(c) {
                return number;
            }
            let longer = number * 10 + u32::from(c - b'0');
            if longer > LARGEST {
                return number;
            }
            self.pass(at);
            number = longer;
        }
        number
    }

    pub fn number(&self, at: &mut usize) -> u32
        ensures { run number self.now.text.now at.old ≡ Read result at.new }
    {
        let number = self.digits(at);
        self.blanks(at);
        number
    }
}

// Where a name stands in a list.
pub fn position(names: &[Word], word: Word) -> Option<usize>
    ensures value { result ≡ position names.now word }
    ensures within { elim result [ Some i ↦ i < length names.now | None ↦ Unit {0} ] }
{
    // by the letters alone, as the definition compares
    names.iter().position(|name| name.letters == word.letters)
}

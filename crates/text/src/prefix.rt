// The quantifiers of a sentence, with their names.
ghost use Rattle.std.specs.Prelude.{◌≡◌, ◌+◌, ◌≤◌, IfOk, map, slice_index};
ghost use Rattle.std.specs.Result.{result_map_both};
ghost use Rattle.grammar.specs.Reader.{run};
ghost use Rattle.grammar.specs.Text.{quantifier_of, prefix_next, is_quantifier_letter, quantifiers};
ghost use Rattle.grammar.specs.Tokens.{new_name};
ghost use Rattle.words.specs.Quantifier.{over_all};
ghost use Rattle.text.specs.Outcome.{outcome_of};
ghost use Rattle.text.specs.Prefix.{name_of, prefix_of, Longer};

use crate::bound::Bound;
pub use crate::bound::Prefix;
use crate::source::{Source, position};
use crate::term::is_reserved;
use grammar::fault::Fault;
use grammar::word::Word;
use words::quantifier::Quantifier;

impl Prefix {
    // One quantifier more, the innermost.
    fn longer(self, bound: Bound) -> Prefix
        requires { self.count ≤ 3 }
        ensures value { Longer self bound result }
        ensures count { result.count ≡ self.count + 1 }
    {
        let [first, second, third, _] = self.quantifiers;
        Prefix {
            quantifiers: [bound, first, second, third],
            count: self.count + 1,
        }
    }

    // The names, each in its quantifier's place.
    pub fn names(&self) -> [Word; 4]
        ensures { result ≡ map name_of self.now.quantifiers }
    {
        self.quantifiers.map(|bound| bound.name)
    }
}

impl Source<'_> {
    // A name that isn't quantified yet.
    fn new_name(&self, at: &mut usize) -> Result<Word, Fault>
        ensures { run (new_name self.now.names.now) self.now.text.now at.old ≡ outcome_of result at.new }
    {
        let word = self.letters(at)?;
        if is_reserved(word) {
            return Err(Fault::Unfit);
        }
        match position(self.names, word) {
            Some(_) => Err(Fault::Wrong(word.length)),
            None => {
                self.blanks(at);
                Ok(word)
            }
        }
    }

    // A quantifier, by its word.
    fn quantifier(&self, at: &mut usize) -> Result<Quantifier, Fault>
        ensures { run (quantifier_of (slice_index self.now.text.now at.old)) self.now.text.now at.old ≡ outcome_of (result_map_both over_all (λ fault. fault) result) at.new }
    {
        match self.front(*at) {
            b'e' => {
                self.keyword(at, b"every")?;
                Ok(Quantifier::ForAll)
            }
            _ => {
                self.keyword(at, b"some")?;
                Ok(Quantifier::Exists)
            }
        }
    }
}

// A quantifier more, with its name.
fn prefix_next(text: &[u8], at: &mut usize, prefix: Prefix) -> Result<Prefix, Fault>
    requires { prefix.count ≤ 3 }
    ensures value { run (prefix_next (prefix_of prefix)) text.now at.old ≡ outcome_of (result_map_both prefix_of (λ fault. fault) result) at.new }
    ensures count { IfOk result (λ longer. longer.count ≡ prefix.count + 1) }
{
    let names = prefix.names();
    let source = Source {
        text,
        names: &names[..prefix.count],
    };
    let quantifier = source.quantifier(at)?;
    let name = source.new_name(at)?;
    Ok(prefix.longer(Bound { quantifier, name }))
}

// Whether a quantifier begins like this.
fn begins_quantifier(c: u8) -> bool
    ensures { result ≡ is_quantifier_letter c }
{
    matches!(c, b'e' | b's')
}

// At most four quantifiers.
pub fn quantifiers(text: &[u8], at: &mut usize) -> Result<Prefix, Fault>
    ensures { run quantifiers text.now at.old ≡ outcome_of (result_map_both prefix_of (λ fault. fault) result) at.new }
{
    let none = Bound {
        quantifier: Quantifier::Exists,
        name: Word {
            letters: [0; 8],
            length: 0,
        },
    };
    let mut prefix = Prefix {
        quantifiers: [none; 4],
        count: 0,
    };
    let source = Source { text, names: &[] };
    for _turn in 0..4usize {
        if !begins_quantifier(source.front(*at)) {
            return Ok(prefix);
        }
        prefix = prefix_next(text, at, prefix)?;
    }
    Ok(prefix)
}

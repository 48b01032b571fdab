// What is read of a list of monomials and written to it.
ghost use Rattle.std.specs.Prelude.{◌≡◌, ℕ, ◌+◌, ◌-◌, ◌^◌, ◌<◌, ◌≤◌, [], ◌∷◌, ◌++◌, length, drop};
ghost use Rattle.terms.specs.Sizes.{KeysBelow};
ghost use Rattle.packed.specs.Terms.{term_at, monomial_in};
ghost use Rattle.wide.specs.Written.{written};

use super::Wide;
use packed::monomials::Monomials;
use packed::term::Term;

impl<'a> Wide<'a> {
    // An empty list in this memory.
    pub fn new(keys: &'a mut [i64], coefficients: &'a mut [i64]) -> Wide<'a>
        requires { (length keys.old ≡ 8192) × (length coefficients.old ≡ 8192) }
        ensures { written result ≡ [] }
    {
        Wide {
            keys,
            coefficients,
            len: 0,
        }
    }
}

impl Wide<'_> {
    pub fn len(&self) -> usize
        ensures { result ≡ length (written self.now) }
    {
        self.len
    }

    pub fn clear(&mut self)
        ensures { written self.new ≡ [] }
    {
        self.len = 0;
    }

    // The monomial at a place.
    pub fn term(&self, i: usize) -> Term
        requires { i < length (written self.now) }
        ensures { monomial_in result ≡ term_at (written self.now) i }
    {
        Term {
            key: self.keys[i].unsigned_abs(),
            coefficient: self.coefficients[i],
        }
    }

    // One more monomial at the end, where there is room for it and its key fits.
    pub fn push(&mut self, term: Term)
        requires { (length (written self.old) < 8192) × (term.key < 2 ^ 63) }
        ensures { written self.new ≡ written self.old ++ monomial_in term ∷ [] }
    {
        self.keys[self.len] = term.key as i64;
        self.coefficients[self.len] = term.coefficient;
        self.len += 1;
    }

    // What another list has from a place on, at the end of this one.
    pub fn append(&mut self, list: &Wide, from: usize)
        requires from { from ≤ length (written list.now) }
        requires room { length (written self.old) + (length (written list.now) - from) ≤ 8192 }
        requires keys { KeysBelow (2 ^ 63) (written list.now) }
        ensures { written self.new ≡ written self.old ++ drop from (written list.now) }
    {
        for term in list.terms_from(from) {
            self.push(term);
        }
    }
}

impl Monomials for Wide<'_> {
    ghost monomials = { written };

    fn len(&self) -> usize {
        Wide::len(self)
    }

    fn term(&self, i: usize) -> Term {
        Wide::term(self, i)
    }
}

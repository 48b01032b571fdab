// What is read of a stored polynomial.
ghost use Rattle.std.specs.Prelude.{◌≡◌, ℕ, ◌+◌, ◌^◌, ◌<◌, ◌≤◌, length};
ghost use Rattle.poly.specs.Modest.{magnitude};
ghost use Rattle.packed.specs.Stored.{Stored};
ghost use Rattle.packed.specs.Terms.{terms_in, term_at, monomial_in};
ghost use Rattle.terms.specs.Operations.{is_zero_terms};
ghost use Rattle.terms.specs.LeadingTerms.{last_key};
ghost use Rattle.terms.specs.Cells.{monomials_of};

use super::View;
use crate::monomials::Monomials;
use crate::term::Term;

impl<'a> View<'a> {
    // Of numbers that are a stored polynomial.
    pub fn new(cells: &'a [i64]) -> View<'a>
        requires { Stored cells.now }
        ensures { terms_in result ≡ monomials_of cells.now }
    {
        View { cells }
    }
}

impl View<'_> {
    // How many monomials there are.
    pub fn len(&self) -> usize
        ensures value { result ≡ length (terms_in self.now) }
        ensures bound { result ≤ 64 }
    {
        self.cells.len()
    }

    // The monomial at a place.
    pub fn term(&self, i: usize) -> Term
        requires { i < length (terms_in self.now) }
        ensures value { monomial_in result ≡ term_at (terms_in self.now) i }
        ensures key { result.key < 2 ^ 19 }
        ensures size { magnitude result.coefficient < 2 ^ 27 }
    {
        Term::from(self.cells[i])
    }

    pub fn is_zero(&self) -> bool
        ensures { result ≡ is_zero_terms (terms_in self.now) }
    {
        self.len() == 0
    }

    // The highest key; 0 if there is none.
    pub fn last_key(&self) -> u64
        ensures value { result ≡ last_key (terms_in self.now) }
        ensures bound { result < 2 ^ 19 }
    {
        match self.cells {
            [] => 0,
            [.., last] => Term::from(*last).key,
        }
    }
}

impl Monomials for View<'_> {
    ghost monomials = { terms_in };

    fn len(&self) -> usize {
        View::len(self)
    }

    fn term(&self, i: usize) -> Term {
        View::term(self, i)
    }
}

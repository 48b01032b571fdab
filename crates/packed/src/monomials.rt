// Lists of monomials that are read by place, and their monomials one after the other.
ghost use Rattle.std.specs.Prelude.{◌≡◌, ℕ, ◌<◌, ◌≤◌, List, length, take, drop};
ghost use Rattle.std.specs.Iterator.{YieldsFirstBy, YieldsLastBy, item_count};
ghost use Rattle.terms.specs.Monomial.{Monomial};
ghost use Rattle.packed.specs.Terms.{term_at, monomial_in};

use crate::term::Term;
use std::marker::Model;

// A list of monomials.
pub trait Monomials {
    ghost monomials: { Self → List Monomial };

    fn len(&self) -> usize
        ensures { result ≡ length (monomials self.now) };

    fn term(&self, i: usize) -> Term
        requires { i < length (monomials self.now) }
        ensures { monomial_in result ≡ term_at (monomials self.now) i };

    // All of them, one after the other.
    final fn terms(&self) -> Terms<Self>
        ensures { result ≡ monomials self.now }
    {
        self.terms_from(0)
    }

    // Those from a place on.
    final fn terms_from(&self, from: usize) -> Terms<Self>
        requires { from ≤ length (monomials self.now) }
        ensures { result ≡ drop from (monomials self.now) }
    {
        Terms {
            list: self,
            front: from,
            back: self.len(),
        }
    }
}

// An iterator over a list, seen as the monomials that are left.
#[derive(Drop)]
pub struct Terms<'a, L: Monomials> {
    list: &'a L,
    front: usize,
    back: usize,
}

impl<'a, L: Monomials> Model for Terms<'a, L> {
    ghost Value = { List Monomial };

    ghost view = { λ it. drop it.front (take it.back (L.monomials it.list.now)) };

    ghost invariant = { λ it. (it.front ≤ it.back) × (it.back ≤ length (L.monomials it.list.now)) };
}

impl<'a, L: Monomials> Iterator for Terms<'a, L> {
    type Item = Term;

    ghost next_gives = { YieldsFirstBy monomial_in (λ rest. rest) };

    ghost remaining = { item_count (λ rest. rest) };

    fn next(&mut self) -> Option<Term> {
        if self.front == self.back {
            return None;
        }
        let term = self.list.term(self.front);
        self.front += 1;
        Some(term)
    }
}

impl<'a, L: Monomials> DoubleEndedIterator for Terms<'a, L> {
    ghost next_back_gives = { YieldsLastBy monomial_in (λ rest. rest) };

    fn next_back(&mut self) -> Option<Term> {
        if self.front == self.back {
            return None;
        }
        self.back -= 1;
        Some(self.list.term(self.back))
    }
}

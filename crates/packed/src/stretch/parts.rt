// What is read of a stretch of monomials.
ghost use Rattle.std.specs.Prelude.{◌≡◌, ℕ, ◌-◌, ◌*◌, ◌^◌, ◌<◌, ◌≤◌, length};
ghost use Rattle.terms.specs.Monomial.{raised};
ghost use Rattle.terms.specs.Operations.{neg_terms};
ghost use Rattle.poly.specs.Modest.{magnitude};
ghost use Rattle.terms.specs.LeadingTerms.{length_terms, leading_terms};
ghost use Rattle.packed.specs.Terms.{terms_in, term_at, monomial_in};
ghost use Rattle.packed.specs.StretchTerms.{stretch_terms};
ghost use Rattle.packed.specs.Signed.{signed_number};

use super::Stretch;
use crate::monomials::Monomials;
use crate::term::Term;
use crate::variables::Variables;
use crate::view::View;

impl<'a> Stretch<'a> {
    // All monomials as they are.
    pub fn whole(view: View<'a>) -> Stretch<'a>
        ensures { stretch_terms result ≡ terms_in view.entry }
    {
        Stretch {
            view,
            from: 0,
            down: 0,
            negative: false,
        }
    }

    // The leading coefficient, a polynomial in the `others` variables that come after the first.
    pub fn leading(view: View<'a>, others: Variables) -> Stretch<'a>
        ensures { stretch_terms result ≡ leading_terms others.count (terms_in view.entry) }
    {
        let down = view.leading_key(others);
        let from = view.count_below(down);
        Stretch {
            view,
            from,
            down,
            negative: false,
        }
    }

    // The leading coefficient of the dividend with that power of the first variable by which its degree exceeds the divisor's.
    pub fn leading_over(dividend: View<'a>, divisor: View, others: Variables) -> Stretch<'a>
        requires real { 0 < length_terms others.count (terms_in divisor) }
        requires over { length_terms others.count (terms_in divisor) ≤ length_terms others.count (terms_in dividend) }
        ensures { stretch_terms result ≡ raised ((length_terms others.count (terms_in dividend.entry) - length_terms others.count (terms_in divisor.entry)) * 32 ^ others.count) (leading_terms others.count (terms_in dividend.entry)) }
    {
        let from = dividend.count_below(dividend.leading_key(others));
        Stretch {
            view: dividend,
            from,
            down: divisor.leading_key(others),
            negative: false,
        }
    }
}

impl Stretch<'_> {
    // The negatives of all.
    pub fn negated(mut self) -> Self
        ensures { stretch_terms result ≡ neg_terms (stretch_terms self.entry) }
    {
        self.negative = !self.negative;
        self
    }

    pub fn len(&self) -> usize
        ensures value { result ≡ length (stretch_terms self.now) }
        ensures bound { result ≤ 64 }
    {
        self.view.len() - self.from
    }

    // The monomial at a place.
    pub fn term(&self, i: usize) -> Term
        requires { i < length (stretch_terms self.now) }
        ensures value { monomial_in result ≡ term_at (stretch_terms self.now) i }
        ensures key { result.key < 2 ^ 19 }
        ensures size { magnitude result.coefficient < 2 ^ 27 }
    {
        let term = self.view.term(self.from + i);
        Term {
            key: term.key - self.down,
            coefficient: self.with_sign(term.coefficient),
        }
    }

    // A coefficient, or its negative.
    fn with_sign(&self, x: i64) -> i64
        requires { magnitude x < 2 ^ 27 }
        ensures value { result ≡ signed_number self.now.negative x }
        ensures size { magnitude result < 2 ^ 27 }
    {
        if self.negative { -x } else { x }
    }
}

impl Monomials for Stretch<'_> {
    ghost monomials = { stretch_terms };

    fn len(&self) -> usize {
        Stretch::len(self)
    }

    fn term(&self, i: usize) -> Term {
        Stretch::term(self, i)
    }
}

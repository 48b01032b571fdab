// A stored polynomial in its first variable; `others` is how many variables come after that.
ghost use Rattle.std.specs.Prelude.{◌≡◌, ℕ, ◌^◌, ◌<◌, ◌≤◌, length, position, nat_le};
ghost use Rattle.terms.specs.LeadingTerms.{degree_terms, length_terms, count_below, leading_key, prefix_terms};
ghost use Rattle.packed.specs.Terms.{terms_in, term_of};

use super::View;
use crate::term::Term;
use crate::variables::Variables;

impl<'a> View<'a> {
    // Zero has degree 0.
    pub fn degree(&self, others: Variables) -> u64
        ensures value { result ≡ degree_terms others.count (terms_in self.now) }
        ensures bound { result < 2 ^ 19 }
    {
        self.last_key() / others.digit_place()
    }

    // How many coefficients there are, zeros below the leading one counted.
    pub fn coefficient_count(&self, others: Variables) -> u64
        ensures value { result ≡ length_terms others.count (terms_in self.now) }
        ensures bound { result ≤ 2 ^ 19 }
    {
        if self.is_zero() {
            return 0;
        }
        self.degree(others) + 1
    }

    // How many monomials come before the first whose key is `bound` or more.
    pub fn count_below(&self, bound: u64) -> usize
        ensures { result ≡ count_below bound (terms_in self.now) }
    {
        first_at_least(self.cells, bound).unwrap_or(self.cells.len())
    }

    // The lowest key that a monomial of the leading coefficient can have.
    pub fn leading_key(&self, others: Variables) -> u64
        ensures value { result ≡ leading_key others.count (terms_in self.now) }
        ensures bound { result < 2 ^ 19 }
    {
        self.degree(others) * others.digit_place()
    }

    // What is left without the leading coefficient: the same numbers, fewer of them.
    pub fn without_leading(self, others: Variables) -> View<'a>
        ensures { terms_in result ≡ prefix_terms others.count (terms_in self.entry) }
    {
        let count = self.count_below(self.leading_key(others));
        View::new(&self.cells[0..count])
    }
}

// The place of the first monomial that has this key or a higher one.
fn first_at_least(cells: &[i64], key: u64) -> Option<usize>
    ensures { result ≡ position (λ cell. nat_le key (term_of cell).key) cells.now }
{
    cells.iter().position(|cell| key <= Term::from(*cell).key)
}

// What is computed of stored polynomials. Each result is written to the list in front; nothing is refused, and at most 8,192 monomials are written.
ghost use Rattle.std.specs.Prelude.{◌≡◌, ℕ, ◌^◌, ◌<◌, ◌≤◌, length};
ghost use Rattle.poly.specs.Modest.{magnitude};
ghost use Rattle.terms.specs.Monomial.{Rising, constant_terms};
ghost use Rattle.terms.specs.Operations.{add_terms, neg_terms, mul_terms, variable_terms};
ghost use Rattle.terms.specs.LeadingTerms.{length_terms, derivative_terms, slopes};
ghost use Rattle.terms.specs.DivisionTerms.{step_terms};
ghost use Rattle.packed.specs.Terms.{terms_in, monomial_in};
ghost use Rattle.packed.specs.StretchTerms.{stretch_terms};
ghost use Rattle.wide.specs.Written.{written};
ghost use Rattle.wide.specs.Slopes.{slope_by};

use crate::scratch::Scratch;
use packed::monomials::Monomials;
use packed::stretch::Stretch;
use packed::term::Term;
use packed::variables::Variables;
use packed::view::View;

impl Scratch<'_> {
    // At most 128 monomials.
    pub fn sum(&mut self, left: View, right: View)
        ensures value { written self.new.front ≡ add_terms (terms_in left.entry) (terms_in right.entry) }
        ensures rising { Rising 0 (2 ^ 20) (written self.new.front) }
    {
        self.copy(Stretch::whole(right));
        self.add_scaled(
            Term {
                key: 0,
                coefficient: 1,
            },
            left,
        );
    }

    // At most 64 monomials.
    pub fn negative(&mut self, polynomial: View)
        ensures value { written self.new.front ≡ neg_terms (terms_in polynomial.entry) }
        ensures rising { Rising 0 (2 ^ 20) (written self.new.front) }
    {
        self.copy(Stretch::whole(polynomial).negated());
    }

    // At most 4,096 monomials.
    pub fn product(&mut self, left: View, right: View)
        ensures value { written self.new.front ≡ mul_terms (terms_in left.entry) (terms_in right.entry) }
        ensures rising { Rising 0 (2 ^ 20) (written self.new.front) }
    {
        self.clear();
        self.add_product(Stretch::whole(left), right);
    }

    // One step of a division by a divisor that isn't zero and has no higher degree: at most 8,192 monomials.
    pub fn division_step(&mut self, divisor: View, dividend: View, others: Variables)
        requires real { 0 < length_terms others.count (terms_in divisor) }
        requires over { length_terms others.count (terms_in divisor) ≤ length_terms others.count (terms_in dividend) }
        ensures value { written self.new.front ≡ step_terms others.count (terms_in divisor.entry) (terms_in dividend.entry) }
        ensures rising { Rising 0 (2 ^ 20) (written self.new.front) }
    {
        self.clear();
        self.add_product(Stretch::leading(divisor, others), dividend);
        self.add_product(
            Stretch::leading_over(dividend, divisor, others).negated(),
            divisor,
        );
    }

    // A stretch of monomials: at most 64.
    pub fn copy(&mut self, stretch: Stretch)
        ensures value { written self.new.front ≡ stretch_terms stretch.entry }
        ensures rising { Rising 0 (2 ^ 20) (written self.new.front) }
    {
        self.clear();
        for term in stretch.terms() {
            self.front.push(term);
        }
    }

    // The derivative in the first variable, which `others` more come after: at most 64 monomials.
    pub fn derivative(&mut self, polynomial: View, others: Variables)
        ensures value { written self.new.front ≡ derivative_terms others.count (terms_in polynomial.entry) }
        ensures rising { Rising 0 (2 ^ 20) (written self.new.front) }
    {
        let place = others.digit_place();
        self.clear();
        for term in polynomial.terms_from(polynomial.count_below(place)) {
            self.front.push(slope(term, place));
        }
    }

    // A number: at most one monomial.
    pub fn number(&mut self, number: i64)
        ensures value { written self.new.front ≡ constant_terms number }
        ensures rising { Rising 0 (2 ^ 20) (written self.new.front) }
    {
        self.clear();
        if number != 0 {
            self.front.push(Term {
                key: 0,
                coefficient: number,
            });
        }
    }

    // One of so many variables; zero if there is none of this number.
    pub fn variable(&mut self, variables: Variables, variable: u32)
        ensures value { written self.new.front ≡ variable_terms variables.count variable }
        ensures rising { Rising 0 (2 ^ 20) (written self.new.front) }
    {
        self.clear();
        if let Some(others) = variables.after(variable) {
            self.front.push(Term {
                key: others.digit_place(),
                coefficient: 1,
            });
        }
    }
}

// A monomial's derivative, where the first variable's digit has this value and isn't zero.
fn slope(term: Term, place: u64) -> Term
    requires place { 0 < place }
    requires key { (place ≤ term.key) × (term.key < 2 ^ 19) }
    requires size { magnitude term.coefficient < 2 ^ 27 }
    ensures value { monomial_in result ≡ slope_by place (monomial_in term) }
    ensures bound { result.key < 2 ^ 19 }
{
    let exponent = (term.key / place) as i64;
    Term {
        key: term.key - place,
        coefficient: exponent * term.coefficient,
    }
}

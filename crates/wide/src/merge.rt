// A monomial times a stored polynomial, added to a list: one merge by the keys.
ghost use Rattle.std.specs.Prelude.{◌≡◌, ℕ, ◌+◌, ◌^◌, ◌<◌, ◌≤◌, [], ◌∷◌, ◌++◌, length, ◌+ℤ◌, ◌*ℤ◌};
ghost use Rattle.terms.specs.Monomial.{monomial};
ghost use Rattle.poly.specs.Modest.{magnitude};
ghost use Rattle.terms.specs.Operations.{add_terms, put_term};
ghost use Rattle.packed.specs.Terms.{terms_in, term_at, monomial_in};
ghost use Rattle.wide.specs.Written.{written};
ghost use Rattle.wide.specs.Merging.{Addable, Merged, scaled_by};

use crate::wide::Wide;
use packed::term::Term;
use packed::view::View;

// How far a merge has come in its two lists.
#[derive(Clone, Copy)]
pub struct Place {
    pub left: usize,
    pub right: usize,
}

// The sum of a list and of a monomial times a stored polynomial. The two factors go along as two: a struct of them would be taken apart at each step.
pub fn add_scaled(by: Term, polynomial: View, list: &Wide, out: &mut Wide)
    requires { Addable (scaled_by by (polynomial)) (written list.now) }
    ensures { written out.new ≡ add_terms (scaled_by by polynomial.entry) (written list.now) }
{
    out.clear();
    let mut place = Place { left: 0, right: 0 };
    // A merge goes forward in two lists at once, so no `for` over one of them does it.
    while place.left < polynomial.len() {
        place = merge_next(by, polynomial, list, out, place);
    }
    out.append(list, place.right);
}

// The next monomial of the sum, unless it is zero, from here on.
fn merge_next(by: Term, polynomial: View, list: &Wide, out: &mut Wide, place: Place) -> Place
    requires fits { Addable (scaled_by by (polynomial)) (written list.now) }
    requires left { place.left < length (scaled_by by (polynomial)) }
    requires right { place.right ≤ length (written list.now) }
    requires short { length (written out.old) ≤ place.left + place.right }
    ensures { Merged (scaled_by by polynomial.entry) (written list.now) place.left place.right (written out.old) result.left result.right (written out.new) }
{
    let left = scaled(by, polynomial.term(place.left));
    if place.right == list.len() {
        out.push(left);
        return Place {
            left: place.left + 1,
            ..place
        };
    }
    let right = list.term(place.right);
    // Two tests: a `match` on the order of the keys takes a quarter more instructions in a product.
    if left.key < right.key {
        out.push(left);
        return Place {
            left: place.left + 1,
            ..place
        };
    }
    if right.key < left.key {
        out.push(right);
        return Place {
            right: place.right + 1,
            ..place
        };
    }
    push_sum(left, right, out);
    Place {
        left: place.left + 1,
        right: place.right + 1,
    }
}

// The sum of two monomials with one key at the end of the list, unless they cancel.
fn push_sum(left: Term, right: Term, out: &mut Wide)
    requires room { length (written out.old) < 8192 }
    requires key { left.key < 2 ^ 63 }
    requires size { magnitude (left.coefficient +ℤ right.coefficient) < 2 ^ 63 }
    ensures { written out.new ≡ written out.old ++ put_term (monomial left.key (left.coefficient +ℤ right.coefficient)) [] }
{
    let sum = left.coefficient + right.coefficient;
    if sum != 0 {
        out.push(Term {
            key: left.key,
            coefficient: sum,
        });
    }
}

// The product of two monomials.
fn scaled(by: Term, term: Term) -> Term
    requires key { by.key + term.key < 2 ^ 63 }
    requires size { magnitude (by.coefficient *ℤ term.coefficient) < 2 ^ 63 }
    ensures { monomial_in result ≡ monomial (by.key + term.key) (by.coefficient *ℤ term.coefficient) }
{
    Term {
        key: by.key + term.key,
        coefficient: by.coefficient * term.coefficient,
    }
}

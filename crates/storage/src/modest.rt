// Which lists of monomials are modest: coefficients below 2^27, exponents at most 8, at most 64 numbers as nested lists.
ghost use Rattle.std.specs.Prelude.{◌≡◌, ◌+◌, ◌/◌, ◌%◌, ◌^◌, ◌≤◌, ◌==◌, ◌&&◌, cond, nat_lt, MatchOption};
ghost use Rattle.poly.specs.Modest.{magnitude};
ghost use Rattle.terms.specs.ModestTerms.{small_key, small_terms, last_digits, modest_terms};
ghost use Rattle.wide.specs.Written.{written};

use packed::monomials::Monomials;
use packed::term::Term;
use wide::wide::Wide;

// How many numbers a polynomial may hold.
pub const MOST_NUMBERS: u64 = 64;

pub fn is_modest(list: &Wide) -> bool
    ensures { result ≡ modest_terms 4 (written list.now) }
{
    is_small(list) && number_count(list) <= MOST_NUMBERS
}

// Whether all coefficients and all exponents are small.
fn is_small(list: &Wide) -> bool
    ensures { result ≡ small_terms 4 (written list.now) }
{
    list.terms().all(is_small_term)
}

fn is_small_term(term: Term) -> bool
    ensures { result ≡ nat_lt (magnitude term.coefficient) (2 ^ 27) && small_key 4 term.key }
{
    term.coefficient.unsigned_abs() < 1 << 27 && is_small_key(term.key)
}

// Whether the four digits are at most 8.
fn is_small_key(key: u64) -> bool
    ensures { result ≡ small_key 4 key }
{
    let mut rest = key;
    for _ in 0..4u32 {
        if rest % 32 > 8 {
            return false;
        }
        rest /= 32;
    }
    true
}

// How many numbers the polynomial holds as nested lists.
fn number_count(list: &Wide) -> u64
    ensures { result ≡ last_digits (written list.now) }
{
    let mut count = 0;
    let mut next = None;
    for term in list.terms().rev() {
        count += numbers(term, next);
        next = Some(term);
    }
    count
}

// How many of them an innermost list has that ends with this monomial; none if it goes on with the next.
fn numbers(term: Term, next: Option<Term>) -> u64
    ensures value { MatchOption next (result ≡ term.key % 32 + 1) (λ after. result ≡ cond (term.key / 32 == after.key / 32) 0 (term.key % 32 + 1)) }
    ensures bound { result ≤ 32 }
{
    match next {
        Some(next) if next.key / 32 == term.key / 32 => 0,
        _ => term.key % 32 + 1,
    }
}

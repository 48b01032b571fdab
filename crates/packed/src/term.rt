// One monomial.
ghost use Rattle.std.specs.Prelude.{◌≡◌};
ghost use Rattle.terms.specs.Cells.{monomial_of};
ghost use Rattle.packed.specs.Terms.{term_of};

// Its key has a digit in base 32 for each variable's exponent.
#[derive(Clone, Copy, PartialEq, Eq, Debug)]
pub struct Term {
    pub key: u64,
    pub coefficient: i64,
}

// A monomial as it is stored.
impl From<i64> for Term {
    ghost from_gives = { λ cell term. term ≡ term_of cell };

    fn from(cell: i64) -> Term {
        Term {
            key: cell.rem_euclid(1 << 20).unsigned_abs(),
            coefficient: cell.div_euclid(1 << 20),
        }
    }
}

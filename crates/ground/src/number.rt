// Whole numbers of terms, given up where they grow too large.
ghost use Rattle.std.specs.Prelude.{◌≡◌, ◌+ℤ◌, ◌*ℤ◌};
ghost use Rattle.ground.specs.Ground.{modest, on_both};

// The number itself, if it is modest: below 2^27 without its sign.
pub fn modest_number(z: i64) -> Option<i64>
    ensures { result ≡ modest z }
{
    match z {
        -134217727..=134217727 => Some(z),
        _ => None,
    }
}

// Sum and product differ in one word: a function over the operation would be longer, with its contract, than both.
pub fn sum(a: Option<i64>, b: Option<i64>) -> Option<i64>
    ensures { result ≡ on_both (λ x y. modest (x +ℤ y)) a b }
{
    let (x, y) = a.zip(b)?;
    modest_number(x.checked_add(y)?)
}

pub fn product(a: Option<i64>, b: Option<i64>) -> Option<i64>
    ensures { result ≡ on_both (λ x y. modest (x *ℤ y)) a b }
{
    let (x, y) = a.zip(b)?;
    modest_number(x.checked_mul(y)?)
}

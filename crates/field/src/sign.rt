// The sign of a number.
ghost use Rattle.std.specs.Prelude.{◌≡◌};
ghost use Rattle.field.specs.Sign.{flip, times, sign_of, number_of};

#[derive(Clone, Copy, PartialEq, Eq, Debug)]
pub enum Sign {
    Neg,
    Zero,
    Pos,
}

impl Sign {
    // The sign of a whole number.
    pub fn of(number: i64) -> Sign
        ensures { result ≡ sign_of number }
    {
        match number {
            ..0 => Sign::Neg,
            0 => Sign::Zero,
            1.. => Sign::Pos,
        }
    }

    // The sign of -x, for x of this sign.
    pub fn flipped(self) -> Sign
        ensures { result ≡ flip self }
    {
        match self {
            Sign::Neg => Sign::Pos,
            Sign::Zero => Sign::Zero,
            Sign::Pos => Sign::Neg,
        }
    }

    // The sign of x * y, for x of this sign and y of the other.
    pub fn product(self, other: Sign) -> Sign
        ensures { result ≡ times self other }
    {
        match self {
            Sign::Neg => other.flipped(),
            Sign::Zero => Sign::Zero,
            Sign::Pos => other,
        }
    }
}

// The number -1, 0 or 1 with this sign.
impl From<Sign> for i64 {
    ghost from_gives = { λ sign z. z ≡ number_of sign };

    fn from(sign: Sign) -> i64 {
        match sign {
            Sign::Neg => -1,
            Sign::Zero => 0,
            Sign::Pos => 1,
        }
    }
}

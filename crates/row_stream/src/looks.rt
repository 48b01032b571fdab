// What a table asks of a row of signs.
ghost use Rattle.std.specs.Prelude.{◌≡◌};
ghost use Rattle.sign_table.specs.Deduce.{any_zero, at_root, first_sign, without_first_sign};
ghost use Rattle.stream.specs.Step.{way_between, point_stays};
ghost use Rattle.row_stream.specs.Known.{known_of};

use crate::signs::front;
use field::sign::Sign;
use stream::way::Way;

pub fn any_zero(signs: &[Sign]) -> bool
    ensures { result ≡ any_zero signs.now }
{
    signs.contains(&Sign::Zero)
}

// The sign of p where one of these is zero: that of its remainder by the first such one.
pub fn at_root(signs: &[Sign], remainders: &[Sign]) -> Option<Sign>
    ensures { known_of result ≡ at_root signs.now remainders.now }
{
    // signs that have no remainder are not walked
    let zero = front(signs, remainders.len())
        .iter()
        .position(|s| *s == Sign::Zero)?;
    remainders.get(zero).copied()
}

pub fn first_sign(signs: &[Sign]) -> Sign
    ensures { result ≡ first_sign signs.now }
{
    signs.first().copied().unwrap_or(Sign::Zero)
}

pub fn without_first(signs: &[Sign]) -> &[Sign]
    ensures { result.now ≡ without_first_sign signs.now }
{
    signs.get(1..).unwrap_or(&[])
}

// How p goes along an interval, from its signs at the two ends, if these say it.
pub fn way_between(left: Option<Sign>, right: Option<Sign>) -> Option<Way>
    ensures { result ≡ way_between (known_of left) (known_of right) }
{
    match (left?, right?) {
        (Sign::Zero, Sign::Zero) => None,
        (Sign::Zero, s) | (s, Sign::Zero) => Some(Way::Stays(s)),
        (from, to) if from == to => Some(Way::Stays(from)),
        (from, _) => Some(Way::Crosses(from)),
    }
}

// Whether a point stays, where p and the others have these signs.
pub fn point_stays(p: Option<Sign>, signs: &[Sign]) -> bool
    ensures { result ≡ point_stays (known_of p) signs.now }
{
    p == Some(Sign::Zero) || any_zero(without_first(signs))
}

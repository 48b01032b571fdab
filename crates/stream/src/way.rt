// How a polynomial goes along an interval on which its derivative isn't zero.
use field::sign::Sign;

// With one sign; or from this sign through a root to the opposite one.
#[derive(Clone, Copy, PartialEq, Eq, Debug)]
pub enum Way {
    Stays(Sign),
    Crosses(Sign),
}

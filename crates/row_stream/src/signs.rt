// A row of signs, and the parts of one.
ghost use Rattle.std.specs.Prelude.{◌≡◌, take, drop};

use crate::at_most::AtMost;
use field::sign::Sign;

pub const MAX_SIGNS: usize = 63;

pub type Signs = AtMost<Sign, MAX_SIGNS>;

pub fn front(row: &[Sign], count: usize) -> &[Sign]
    ensures { result.now ≡ take count row.now }
{
    row.get(..count).unwrap_or(row)
}

pub fn back(row: &[Sign], count: usize) -> &[Sign]
    ensures { result.now ≡ drop count row.now }
{
    row.get(count..).unwrap_or(&[])
}

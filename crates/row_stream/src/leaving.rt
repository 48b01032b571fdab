// The rows that leave a table at once, at most four, each by p's sign and where it is.
ghost use Rattle.std.specs.Prelude.{◌≡◌, ◌≤◌, [], ◌∷◌, length};
ghost use Rattle.field.specs.declared.sign.Sign.TheVariants.{Zero};
ghost use Rattle.field.specs.Sign.{flip};
ghost use Rattle.row_stream.specs.declared.leaving.Entry.TheVariants.{Interval};
ghost use Rattle.row_stream.specs.Known.{known_of};
ghost use Rattle.row_stream.specs.Leaving.{entries_of, leaving_of, entries_to_point, entries_to_end};

use crate::at_most::AtMost;
use field::sign::Sign;
use stream::way::Way;

// p's sign on an interval, or at the point after it.
#[derive(Clone, Copy, PartialEq, Eq, Debug)]
pub enum Entry {
    Interval(Sign),
    Point(Sign),
}

// p's sign isn't known in a row that stays.
#[derive(Clone, Copy, PartialEq, Eq, Debug)]
pub struct Gap;

pub type Leaving = AtMost<Entry, 4>;

fn leaving(entries: &[Entry]) -> Leaving
    requires { length entries.now ≤ 4 }
    ensures { entries_of result ≡ entries.now }
{
    Leaving::copied(entries, Entry::Interval(Sign::Zero))
}

pub fn nothing() -> Leaving
    ensures { entries_of result ≡ [] }
{
    leaving(&[])
}

// An interval on which p goes from this sign through a root to the opposite one.
fn crossing(s: Sign) -> [Entry; 3]
    ensures { result ≡ Interval s ∷ Interval Zero ∷ Interval (flip s) ∷ [] }
{
    [
        Entry::Interval(s),
        Entry::Interval(Sign::Zero),
        Entry::Interval(s.flipped()),
    ]
}

// What leaves when a point comes. Its sign and whether it stays are asked apart, as the definition asks them: one Option of both would be taken apart in the clause.
pub fn until_point(way: Option<Way>, p: Option<Sign>, stays: bool) -> Result<Leaving, Gap>
    ensures { leaving_of result ≡ entries_to_point way (known_of p) stays }
{
    let point = Entry::Point(p.unwrap_or(Sign::Zero));
    match way {
        Some(Way::Stays(s)) if stays => Ok(leaving(&[Entry::Interval(s), point])),
        Some(Way::Crosses(s)) => {
            let [before, root, behind] = crossing(s);
            Ok(if stays {
                leaving(&[before, root, behind, point])
            } else {
                leaving(&[before, root])
            })
        }
        None if stays => Err(Gap),
        Some(Way::Stays(_)) | None => Ok(nothing()),
    }
}

// What leaves at the end.
pub fn until_end(way: Option<Way>) -> Result<Leaving, Gap>
    ensures { leaving_of result ≡ entries_to_end way }
{
    match way.ok_or(Gap)? {
        Way::Stays(s) => Ok(leaving(&[Entry::Interval(s)])),
        Way::Crosses(s) => Ok(leaving(&crossing(s))),
    }
}

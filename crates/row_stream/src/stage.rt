// A table in a chain, and the rows that it hands on.
ghost use Rattle.std.specs.Prelude.{◌≡◌};
ghost use Rattle.sign_table.specs.Deduce.{insert_at};
ghost use Rattle.stream.specs.Stage.{filled_by};
ghost use Rattle.row_stream.specs.Signs.{signs_of};
ghost use Rattle.row_stream.specs.Filling.{plan_of, stage_of};
ghost use Rattle.row_stream.specs.Leaving.{entry_row};

use crate::at_most::AtMost;
use crate::leaving::Entry;
use crate::looks::without_first;
use crate::signs::{MAX_SIGNS, Signs};
use field::sign::Sign;
use std::slice;

// Of each polynomial the sign that it has in every row; none: it has the next of the real ones' signs.
pub type Plan = AtMost<Option<Sign>, MAX_SIGNS>;

#[derive(Clone, Copy)]
pub struct Stage {
    pub plan: Plan,
    pub place: usize,
    pub divisors: usize,
}

impl Stage {
    // The row by the plan, in which p at its place among the real ones has this sign.
    pub fn filled(&self, sign: Sign, others: &[Sign]) -> Signs
        ensures { signs_of result ≡ filled_by (plan_of self.now) (insert_at self.now.place sign others.now) }
    {
        let plan = self.plan.view();
        let (before, behind) = others.split_at(self.place.min(others.len()));
        let mut reals = before.iter().chain(slice::from_ref(&sign)).chain(behind);
        let mut items = [Sign::Zero; MAX_SIGNS];
        // by index: the library says nothing of what is written through an adapter of iter_mut
        for (i, slot) in plan.iter().enumerate() {
            items[i] = match slot {
                Some(known) => *known,
                None => reals.next().copied().unwrap_or(Sign::Zero),
            };
        }
        Signs {
            items,
            count: plan.len(),
        }
    }

    // The row that leaves with this entry.
    pub fn entry_row(&self, entry: Entry, on_interval: &[Sign], at_point: &[Sign]) -> Signs
        ensures { signs_of result ≡ entry_row (stage_of self.now) on_interval.now at_point.now entry }
    {
        let (sign, others) = match entry {
            Entry::Interval(sign) => (sign, on_interval),
            Entry::Point(sign) => (sign, at_point),
        };
        self.filled(sign, without_first(others))
    }
}

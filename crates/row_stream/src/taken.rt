// What a table does with one row: what it keeps, and what leaves.
ghost use Rattle.std.specs.Prelude.{◌≡◌, take};
ghost use Rattle.stream.specs.Step.{stepped};
ghost use Rattle.row_stream.specs.Signs.{signs_of};
ghost use Rattle.row_stream.specs.Filling.{stage_of};
ghost use Rattle.row_stream.specs.Cells.{cell_of, held_of};
ghost use Rattle.row_stream.specs.Taken.{taken_of, PointTakenAs, EndTakenAs};

use crate::cell::{Cell, Side};
use crate::leaving::{Gap, Leaving, nothing, until_end, until_point};
use crate::looks::{any_zero, at_root, first_sign, point_stays, way_between};
use crate::signs::{Signs, back, front};
use crate::stage::Stage;
use field::sign::Sign;

// The cell afterwards, and what leaves.
#[derive(Clone, Copy)]
pub struct Taken {
    pub cell: Cell,
    pub leaving: Leaving,
}

// A point that stays comes after an interval where the others' signs are held.
fn point_taken(side: Side, held: &Signs, p: Option<Sign>, others: &[Sign]) -> Result<Taken, Gap>
    ensures { PointTakenAs side (signs_of held.now) p others.now result }
{
    let way = way_between(side.left_end(held.view()), p);
    Ok(Taken {
        cell: Cell {
            side: Side::After(p),
            held: None,
        },
        leaving: until_point(way, p, point_stays(p, others))?,
    })
}

impl Cell {
    // The next row comes.
    #[tactic(auto, unfolding(stream::specs::Step::stepped))]
    pub fn take_row(self, stage: &Stage, row: &Signs) -> Result<Taken, Gap>
        ensures { stepped (stage_of stage.now) (cell_of self) (signs_of row.now) ≡ taken_of (stage_of stage.now) (held_of self) (take stage.now.divisors (signs_of row.now)) result }
    {
        let row = row.view();
        let others = front(row, stage.divisors);
        let Some(held) = self.held else {
            return Ok(Taken {
                cell: Cell {
                    held: Some(Signs::copied(others, Sign::Zero)),
                    ..self
                },
                leaving: nothing(),
            });
        };
        if !any_zero(others) {
            return Ok(Taken {
                cell: Cell { held: None, ..self },
                leaving: nothing(),
            });
        }
        point_taken(
            self.side,
            &held,
            at_root(others, back(row, stage.divisors)),
            others,
        )
    }

    // No more rows come.
    #[tactic(auto, unfolding(stream::specs::Step::closing))]
    pub fn take_end(&self) -> Result<Leaving, Gap>
        ensures { EndTakenAs self.now result }
    {
        let Some(held) = &self.held else {
            return Ok(nothing());
        };
        let others = held.view();
        until_end(way_between(self.side.left_end(others), Some(first_sign(others))))
    }
}

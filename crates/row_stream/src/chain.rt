// A chain of tables, the innermost first: each takes the rows of the one before it, and a sink takes the last one's.
ghost use Rattle.std.specs.Prelude.{◌≡◌, [], ◌∷◌, length, drop, replicate};
ghost use mathlib.Core.List.{foldl};
ghost use Rattle.stream.specs.Stage.{Went, upon, outermost_rows};
ghost use Rattle.stream.specs.Chain.{pushed, pushed_all, closed};
ghost use Rattle.row_stream.specs.Signs.{signs_of};
ghost use Rattle.row_stream.specs.Filling.{stage_of, stages_of};
ghost use Rattle.row_stream.specs.Cells.{cells_of, empty_cell};
ghost use Rattle.row_stream.specs.Taken.{leaving_rows};
ghost use Rattle.row_stream.specs.Reached.{reached, ended};

use crate::cell::{Cell, Side};
use crate::leaving::{Gap, Leaving};
use crate::signs::{Signs, front};
use crate::sink::Sink;
use crate::stage::Stage;
use crate::tables::Tables;
use field::sign::Sign;

// A row is pushed into the innermost table.
// Stages and cells are two slices, here and where the tables close: each table takes both apart, and a stage without a cell is a gap, so nothing is asked of their lengths.
#[cycle(give_push)]
#[tactic(auto, unfolding(stream::specs::Chain::pushed, stream::specs::Chain::pushed_all))]
pub fn push<S: Sink>(
    stages: &[Stage],
    cells: &mut [Cell],
    sink: &mut S,
    row: &Signs,
) -> Result<(), Gap>
    ensures { pushed S.Sink.grown (stages_of stages.now) (cells_of cells.old) sink.old (signs_of row.now) ≡ reached result (cells_of cells.new) sink.new }
{
    let Some((stage, outer)) = stages.split_first() else {
        sink.take(row.view());
        return Ok(());
    };
    let Some((cell, kept)) = cells.split_first_mut() else {
        return Err(Gap);
    };
    let taken = cell.take_row(stage, row)?;
    let before = *cell;
    *cell = taken.cell;
    let others = front(row.view(), stage.divisors);
    give(
        stage,
        outer,
        kept,
        sink,
        &taken.leaving,
        before.held(),
        others,
    )
}

// The rows that leave a table are pushed into the next one.
#[cycle(give_push)]
#[tactic(auto, unfolding(stream::specs::Chain::pushed, stream::specs::Chain::pushed_all))]
fn give<S: Sink>(
    stage: &Stage,
    stages: &[Stage],
    cells: &mut [Cell],
    sink: &mut S,
    leaving: &Leaving,
    on_interval: &[Sign],
    at_point: &[Sign],
) -> Result<(), Gap>
    ensures { pushed_all (pushed S.Sink.grown (stages_of stages.now)) (cells_of cells.old) sink.old (leaving_rows (stage_of stage.now) on_interval.now at_point.now leaving.now) ≡ reached result (cells_of cells.new) sink.new }
{
    for entry in leaving.view() {
        let row = stage.entry_row(*entry, on_interval, at_point);
        push(stages, cells, sink, &row)?;
    }
    Ok(())
}

// No more rows come: the tables close, the innermost first.
#[tactic(auto, unfolding(stream::specs::Chain::closed))]
pub fn close<S: Sink>(stages: &[Stage], cells: &mut [Cell], sink: &mut S) -> Result<(), Gap>
    ensures { closed S.Sink.grown (stages_of stages.now) (cells_of cells.old) sink.old ≡ ended result sink.new }
{
    let Some((stage, outer)) = stages.split_first() else {
        return Ok(());
    };
    let Some((cell, kept)) = cells.split_first_mut() else {
        return Err(Gap);
    };
    let leaving = cell.take_end()?;
    let held = cell.held();
    give(stage, outer, kept, sink, &leaving, held, held)?;
    close(outer, kept, sink)
}

// Nothing is kept.
fn clear(cells: &mut [Cell])
    ensures { cells.new ≡ replicate (length cells.old) empty_cell }
{
    cells.fill(Cell {
        side: Side::Far,
        held: None,
    });
}

// A table of one row alone, run through all of these: the sink takes the rows of the outermost table, unless there is a gap.
pub fn run<S: Sink>(tables: &mut Tables<'_>, sink: &mut S, row: &Signs) -> Result<(), Gap>
    ensures stages { tables.new.stages ≡ tables.old.stages }
    ensures lent { tables.new.cells.ghost_name ≡ tables.old.cells.ghost_name }
    ensures long { length tables.new.cells.now ≡ length tables.old.cells.now }
    ensures beyond { drop (length tables.old.stages.now) tables.new.cells.now ≡ drop (length tables.old.stages.now) tables.old.cells.now }
    ensures rows { ended result sink.new ≡ upon (outermost_rows (stages_of tables.old.stages.now) (signs_of row.now ∷ [])) (λ rows. Went (foldl S.Sink.grown sink.old rows)) }
{
    let stages = tables.stages;
    let cells = &mut tables.cells[..stages.len()];
    clear(cells);
    push(stages, cells, sink, row)?;
    close(stages, cells, sink)
}

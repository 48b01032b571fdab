// What is answered over all the rows of a chain's outermost table, to "some" or to "every".
ghost use Rattle.std.specs.Prelude.{◌≡◌, List, length, drop};
ghost use Rattle.field.specs.declared.sign.Sign.{Sign as RowSign};
ghost use Rattle.stream.specs.Chain.{run as chain_run};
ghost use Rattle.stream.specs.Fold.{before as before_rows, joined};
ghost use Rattle.stream.specs.Resume.{answered};
ghost use Rattle.words.specs.declared.answer.Answer.{Answer as RowAnswer};
ghost use Rattle.row_stream.specs.Signs.{signs_of};
ghost use Rattle.row_stream.specs.Filling.{stages_of};
ghost use Rattle.words.specs.Joined.{join_of};
ghost use Rattle.words.specs.Quantifier.{over_all};
ghost use Rattle.row_stream.specs.Joined.{tree_of};

use crate::chain::run;
use crate::leaving::Gap;
use crate::signs::Signs;
use crate::sink::Sink;
use crate::tables::Tables;
use field::sign::Sign;
use words::answer::Answer;
use words::quantifier::Quantifier;

// What is answered in a row.
pub trait Judge {
    ghost says: { Self → List RowSign → RowAnswer };

    fn answer(&self, row: &[Sign]) -> Answer
        ensures { result ≡ says self.now row.now };
}

// The answer so far.
#[derive(Drop)]
pub struct Tally<J> {
    judge: J,
    quantifier: Quantifier,
    answer: Answer,
}

impl<J: Judge> Sink for Tally<J> {
    ghost grown = { λ t row. record { judge = t.judge; quantifier = t.quantifier; answer = join_of t.quantifier t.answer (J.Judge.says t.judge row) } };

    fn take(&mut self, row: &[Sign]) {
        if self.quantifier.is_settled(self.answer) {
            return;
        }
        let said = self.judge.answer(row);
        self.answer = self.quantifier.join(self.answer, said);
    }
}

// The answer over the rows that a table of one row alone gives through all of these; it is given up where there is a gap.
pub fn over_rows<J: Judge + Drop>(
    quantifier: Quantifier,
    judge: J,
    tables: &mut Tables<'_>,
    row: &Signs,
) -> Answer
    ensures stages { tables.new.stages ≡ tables.old.stages }
    ensures lent { tables.new.cells.ghost_name ≡ tables.old.cells.ghost_name }
    ensures long { length tables.new.cells.now ≡ length tables.old.cells.now }
    ensures beyond { drop (length tables.old.stages.now) tables.new.cells.now ≡ drop (length tables.old.stages.now) tables.old.cells.now }
    ensures rows { tree_of result ≡ answered (λ u. u) (chain_run (λ a s. joined (over_all quantifier) a (tree_of (J.Judge.says judge s))) (stages_of tables.old.stages.now) (before_rows (over_all quantifier)) (signs_of row.now)) }
{
    let mut tally = Tally {
        judge,
        quantifier,
        answer: quantifier.first_answer(),
    };
    match run(tables, &mut tally, row) {
        Ok(()) => tally.answer,
        Err(Gap) => Answer::GivenUp,
    }
}

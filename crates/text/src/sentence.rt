// Sentences: their quantifiers, then a formula about the names that are quantified.
ghost use Rattle.std.specs.Prelude.{◌≤◌};
ghost use Rattle.grammar.specs.Reader.{run};
ghost use Rattle.grammar.specs.Text.{sentence};
ghost use Rattle.text.specs.Sentence.{Announces, WritesSentence};

use crate::bound::Prefix;
use crate::draft::Draft;
use crate::prefix::quantifiers;
use crate::row::Row;
use crate::sheet::Sheet;
use crate::source::Source;
use grammar::fault::Fault;

// How deep a text may be nested.
pub const DEEPEST: usize = 200;

// How many quantifiers there are, and these.
fn announce(sheet: &mut Sheet, prefix: Prefix)
    ensures { Announces prefix sheet.old sheet.new }
{
    sheet.put(prefix.count as i64);
    for bound in &prefix.quantifiers[..prefix.count] {
        sheet.put(i64::from(bound.quantifier));
    }
}

pub fn sentence(text: &[u8], draft: &mut Draft) -> Result<(), Fault>
    ensures { WritesSentence text.now result draft.old draft.new }
{
    let start = Source { text, names: &[] };
    start.blanks(&mut draft.at);
    let prefix = quantifiers(text, &mut draft.at)?;
    start.sign(&mut draft.at, b":")?;
    announce(&mut draft.sheet, prefix);
    let names = prefix.names();
    let source = Source {
        text,
        names: &names[..prefix.count],
    };
    let claim = source.row(draft, DEEPEST, Row::Equivalence)?;
    claim.ok_or(Fault::Unfit)?;
    Ok(())
}

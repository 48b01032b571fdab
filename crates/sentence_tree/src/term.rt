// A term's polynomial from its words.
ghost use Rattle.std.specs.Prelude.{◌≡◌, ◌+◌, ◌*◌, ◌≤◌, length};
ghost use Rattle.words.specs.Reading.{two};
ghost use Rattle.words.specs.Words.{term_at};
ghost use Rattle.sentence_tree.specs.Operations.{combined_term};
ghost use Rattle.sentence_tree.specs.Evaluated.{Evaluates};

use crate::operation::{Operands, Operation, place_combined, place_number, place_variable};
use arena::arena::Arena;
use packed::variables::Variables;
use wide::scratch::Scratch;
use words::kind::Kind;
use words::reader::{NotASentence, Reader};

// Reads a term and stores its polynomial at the arena's top; None where the term isn't modest. 64 numbers for each level of nesting are enough.
#[cycle(term)]
pub fn term(
    reader: &mut Reader,
    scratch: &mut Scratch,
    arena: &mut Arena,
    variables: Variables,
    depth: usize,
) -> Result<Option<usize>, NotASentence>
    requires room { arena.old.top + 64 * (depth + 1) ≤ length arena.old.cells.now }
    ensures read { Evaluates variables.count (term_at depth variables.count reader.old.rest.now) result reader.new.rest.now arena.old.top arena.old.cells.now arena.new.top arena.new.cells.now }
    ensures lent { arena.new.cells.ghost_name ≡ arena.old.cells.ghost_name }
{
    if depth == 0 {
        return Err(NotASentence);
    }
    match reader.kind()? {
        Kind::Variable => {
            let i = reader.variable(variables.count() as u8)?;
            Ok(place_variable(scratch, arena, variables, i))
        }
        Kind::Number => {
            let number = reader.number()?;
            Ok(place_number(scratch, arena, number))
        }
        Kind::Sum => combine(Operation::Sum, reader, scratch, arena, variables, depth - 1),
        Kind::Product => combine(
            Operation::Product,
            reader,
            scratch,
            arena,
            variables,
            depth - 1,
        ),
        Kind::BelowZero | Kind::EqualsZero | Kind::Not | Kind::And | Kind::Or => Err(NotASentence),
    }
}

// Reads two terms, nested at most so deep, and stores what is made of them.
#[cycle(term)]
fn combine(
    operation: Operation,
    reader: &mut Reader,
    scratch: &mut Scratch,
    arena: &mut Arena,
    variables: Variables,
    depth: usize,
) -> Result<Option<usize>, NotASentence>
    requires room { arena.old.top + 64 * (depth + 2) ≤ length arena.old.cells.now }
    ensures read { Evaluates variables.count (two (combined_term operation) (term_at depth variables.count) reader.old.rest.now) result reader.new.rest.now arena.old.top arena.old.cells.now arena.new.top arena.new.cells.now }
    ensures lent { arena.new.cells.ghost_name ≡ arena.old.cells.ghost_name }
{
    let mark = arena.top();
    let left = term(reader, scratch, arena, variables, depth)?;
    let right = term(reader, scratch, arena, variables, depth)?;
    let operands = Operands { mark, left, right };
    Ok(place_combined(scratch, arena, operation, operands))
}

// The polynomials that a tree asks about, each once, in the order of asking.
ghost use Rattle.std.specs.Prelude.{◌≡◌, length};
ghost use Rattle.arena.specs.Standing.{standing, SameLoan};
ghost use Rattle.question.specs.Collect.{has_name, Notes, Collects};
ghost use Rattle.question.specs.Numbers.{numbers};

use crate::questions::Questions;
use crate::tree::{Tree, small};
use arena::arena::{Arena, Full};

// Whether a name is among these.
fn has_name(names: &[i64], k: u16) -> bool
    ensures { result ≡ has_name k names.now }
{
    names.iter().any(|z| small(*z) == k)
}

// Notes a polynomial's name, unless it was noted before; refused where there is no room for one more.
fn note(found: &mut Arena, k: u16) -> Result<(), Full>
    ensures stands { Notes result k (standing found.old) (length found.old.cells.now) (standing found.new) }
    ensures loan { SameLoan found.old found.new }
{
    if has_name(found.part(0, found.top()), k) {
        return Ok(());
    }
    found.push(i64::from(k))
}

// Notes all polynomials that a tree asks about, those of the last end first; refused where they are more than there is room for.
pub fn collect(questions: &Questions, tree: Tree, found: &mut Arena) -> Result<(), Full>
    ensures stands { Collects (numbers questions.now) questions.now.len tree (standing found.old) result (standing found.new) (length found.old.cells.now) }
    ensures loan { SameLoan found.old found.new }
{
    collect_below(questions, tree, questions.len(), found)
}

// The same for a tree whose questions were all asked before number `limit`.
fn collect_below(
    questions: &Questions,
    tree: Tree,
    limit: usize,
    found: &mut Arena,
) -> Result<(), Full>
    ensures stands { Collects (numbers questions.now) limit tree (standing found.old) result (standing found.new) (length found.old.cells.now) }
    ensures loan { SameLoan found.old found.new }
{
    let Tree::Question(i) = tree else {
        return Ok(());
    };
    if i as usize >= limit.min(questions.len()) {
        return Ok(());
    }
    let question = questions.question(i);
    collect_below(questions, question.above, i as usize, found)?;
    collect_below(questions, question.at, i as usize, found)?;
    collect_below(questions, question.below, i as usize, found)?;
    note(found, question.polynomial)
}

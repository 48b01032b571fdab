// What a tree says where its polynomials have given signs.
ghost use Rattle.std.specs.Prelude.{◌≡◌, slice_index_or};
ghost use Rattle.field.specs.declared.sign.Sign.TheVariants.{Zero};
ghost use Rattle.question.specs.Follow.{Follows};
ghost use Rattle.question.specs.Numbers.{numbers};

use crate::questions::Questions;
use crate::tree::Tree;
use field::sign::Sign;
use words::answer::Answer;

// The sign at a place; zero beyond the last.
fn sign_at(signs: &[Sign], k: u16) -> Sign
    ensures { result ≡ slice_index_or signs.now k Zero }
{
    signs.get(k as usize).copied().unwrap_or(Sign::Zero)
}

// The answer of a tree, by the signs of its polynomials. A tree that names a question which was never asked is given up.
pub fn follow(questions: &Questions, tree: Tree, signs: &[Sign]) -> Answer
    ensures { Follows (numbers questions.now) questions.now.len tree signs.now result }
{
    follow_below(questions, tree, signs, questions.len())
}

// The same for a tree whose questions were all asked before number `limit`.
fn follow_below(questions: &Questions, tree: Tree, signs: &[Sign], limit: usize) -> Answer
    ensures { Follows (numbers questions.now) limit tree signs.now result }
{
    let i = match tree {
        Tree::Yes => return Answer::Yes,
        Tree::No => return Answer::No,
        Tree::GivenUp => return Answer::GivenUp,
        Tree::Question(i) => i,
    };
    if i as usize >= limit.min(questions.len()) {
        return Answer::GivenUp;
    }
    let question = questions.question(i);
    let next = question.end(sign_at(signs, question.polynomial));
    follow_below(questions, next, signs, i as usize)
}

// The machine looks at a polynomial: zero is passed, a known sign settles it, and an unknown one is asked for.
ghost use Rattle.std.specs.Prelude.{◌≡◌, ◌+◌, ◌-◌, ◌*◌, ◌<◌, ◌≤◌, false, length};
ghost use Rattle.poly.specs.Poly.{is_zero};
ghost use Rattle.sign_table.specs.Facts.{Unknown};
ghost use Rattle.stacks.specs.Values.{question_in};
ghost use Rattle.table_machine.specs.Cells.{cells_of, rewritten};
ghost use Rattle.table_machine.specs.Moving.{current_poly, current_known, Looks, PassesZero, Room, Stays, Explores, Askable, Returns};

use super::Machine;
use crate::facing::Facing;
use field::sign::Sign;
use question::tree::Tree;
use stacks::arrays::write;
use stacks::marks::{Branch, Fact, Left, Marks, Question};

impl Machine<'_> {
    // The current polynomial is zero everywhere.
    fn pass_zero(&mut self, at: Facing) -> Facing
        requires some { (0 < at.marks.looks) × (0 < at.marks.ahead) }
        requires room { 2 * 2521 ≤ length self.old.lefts.now }
        ensures passes { PassesZero self.old.others.count (cells_of self.old) at.marks self.new.lefts.now result.marks }
        ensures pending { result.pending ≡ at.pending }
        ensures others { self.new.others ≡ self.old.others }
        ensures rest { cells_of self.new ≡ rewritten (cells_of self.old) self.new.lefts.now self.old.facts.now self.old.questions.now }
        ensures long { length self.new.lefts.now ≡ length self.old.lefts.now }
    {
        let left = Left {
            count: 0,
            sign: Sign::Zero,
        };
        write(self.lefts, at.front().slot, left);
        self.next(at)
    }

    // A branch of the last question is explored: what it assumes of the sign becomes a fact.
    fn explore(&mut self, pending: u16, question: Question, sign: Sign) -> Facing
        requires some { 0 < pending }
        requires asking { Askable (cells_of self.old) question.marks }
        requires lefts { 2 * 2521 ≤ length self.old.lefts.now }
        requires questions { 10 * pending ≤ length self.old.questions.now }
        ensures explores { Explores self.old.others.count (cells_of self.old) question.marks (pending - 1) question.branch sign (cells_of self.new) result.marks }
        ensures pending { result.pending ≡ pending }
        ensures others { self.new.others ≡ self.old.others }
    {
        let marks = question.marks;
        write(self.questions, pending - 1, question);
        let fact = Fact {
            slot: marks.base + marks.done,
            count: marks.count,
            sign,
        };
        write(self.facts, marks.facts, fact);
        let marks = Marks {
            facts: marks.facts + 1,
            ..marks
        };
        self.settle(Facing { marks, pending }, sign)
    }

    // A question is asked, and its branch above is explored first.
    fn ask(&mut self, at: Facing) -> Facing
        requires some { (0 < at.marks.looks) × (0 < at.marks.ahead) }
        requires room { Room (cells_of self.old) at.marks at.pending }
        requires unknown { (is_zero (current_poly self.old.others.count self.old.slots.now at.marks) ≡ false) × (current_known self.old.others.count self.old.slots.now self.old.facts.now at.marks ≡ Unknown) }
        ensures looks { Looks self.old.others.count (cells_of self.old) at (cells_of self.new) result }
        ensures stays { Stays self.old self.new }
    {
        let question = Question {
            marks: at.marks,
            branch: Branch::Above,
        };
        self.explore(at.pending + 1, question, Sign::Pos)
    }

    // A branch of the last question is finished, with this tree: the next one is explored, from above to below, if any is left.
    pub fn next_branch(&mut self, tree: Tree, pending: u16) -> Option<Facing>
        requires some { 0 < pending }
        requires asking { Askable (cells_of self.old) (question_in self.old.questions.now (pending - 1)).marks }
        requires lefts { 2 * 2521 ≤ length self.old.lefts.now }
        requires questions { 10 * pending ≤ length self.old.questions.now }
        ensures returns { Returns self.old.others.count (cells_of self.old) tree pending (cells_of self.new) result }
        ensures stays { Stays self.old self.new }
    {
        let Question { marks, branch } = self.question(pending - 1);
        match branch {
            Branch::Above => {
                let branch = Branch::At(tree);
                Some(self.explore(pending, Question { marks, branch }, Sign::Zero))
            }
            Branch::At(above) => {
                let branch = Branch::Below(tree, above);
                Some(self.explore(pending, Question { marks, branch }, Sign::Neg))
            }
            Branch::Below(_, _) => None,
        }
    }

    // At the polynomial that comes first.
    pub fn look(&mut self, at: Facing) -> Facing
        requires some { (0 < at.marks.looks) × (0 < at.marks.ahead) }
        requires room { Room (cells_of self.old) at.marks at.pending }
        ensures looks { Looks self.old.others.count (cells_of self.old) at (cells_of self.new) result }
        ensures stays { Stays self.old self.new }
    {
        if self.is_zero(at) {
            return self.pass_zero(at);
        }
        match self.known(at) {
            Some(sign) => self.settle(at, sign),
            None => self.ask(at),
        }
    }
}

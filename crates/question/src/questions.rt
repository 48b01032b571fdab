// The questions of a tree, one behind the other in lent memory. A question once asked is never changed.
ghost use Rattle.std.specs.Prelude.{◌≡◌, ◌+◌, ◌*◌, ◌<◌, ◌≤◌, length};

use crate::tree::{Question, Tree};
use arena::arena::{Arena, Full};
use arena::record::Record;

// With so many questions a tree is given up, so no count goes beyond.
pub const MOST: u16 = 3500;

#[derive(Drop)]
pub struct Questions<'a> {
    arena: Arena<'a>,
    // The count is a field, though the arena's top is five times it: each method would divide by five, and show that nothing is left over.
    len: usize,
    ghost whole: { arena.top ≡ 5 * len },
}

impl Questions<'_> {
    ghost use Rattle.question.specs.Nodes.{node_at, weight_of, asking};
    ghost use Rattle.question.specs.Numbers.{numbers, Asks};

    // How many questions there are.
    pub fn len(&self) -> usize
        ensures { result ≡ self.now.len }
    {
        self.len
    }

    // A question that was asked.
    pub fn question(&self, i: u16) -> Question
        requires { i < self.now.len }
        ensures { result ≡ node_at (numbers self.now) i }
    {
        let from = Question::WIDTH * i as usize;
        Question::decoded(self.arena.part(from, Question::WIDTH))
    }

    // How many questions a tree has, each counted as often as it stands there, up to the most.
    pub fn weight(&self, tree: Tree) -> u16
        ensures { result ≡ weight_of (numbers self.now) tree }
    {
        match tree {
            Tree::Question(i) if (i as usize) < self.len => self.question(i).weight,
            _ => 0,
        }
    }

    // A new question behind the others, by its index; refused where there is no room for it.
    pub fn ask(&mut self, polynomial: u16, below: Tree, at: Tree, above: Tree) -> Result<Tree, Full>
        ensures stands { Asks result (asking (numbers self.old) polynomial below at above) self.old self.new }
        ensures lent { self.new.arena.cells.ghost_name ≡ self.old.arena.cells.ghost_name }
    {
        let index = u16::try_from(self.len).map_err(|_| Full)?;
        let question = Question {
            polynomial,
            below,
            at,
            above,
            weight: self.weight_of_question(below, at, above),
        };
        let mut cells = [0; Question::WIDTH];
        question.encode(&mut cells);
        self.arena.push_all(&cells)?;
        self.len += 1;
        Ok(Tree::Question(index))
    }

    fn weight_of_question(&self, below: Tree, at: Tree, above: Tree) -> u16
        ensures { result ≡ (asking (numbers self.now) 0 below at above).weight }
    {
        let ends = self
            .weight(below)
            .saturating_add(self.weight(at))
            .saturating_add(self.weight(above));
        ends.saturating_add(1).min(MOST)
    }
}

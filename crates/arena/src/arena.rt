// An arena over a lent slice of numbers: those below its top stand, and the next one goes to the top.
ghost use Rattle.std.specs.Prelude.{◌≡◌, ◌+◌, ◌<◌, ◌≤◌, [], ◌∷◌, length, take, drop, slice_get};

// All the lent numbers are in use.
#[derive(Clone, Copy, PartialEq, Eq, Debug)]
pub struct Full;

// Lent memory has a fixed length, so how much of it is in use stands beside it.
// That the loan stays the same (`lent`) stands with each method: it ties the value after a call to the one before, which no ghost field can.
#[derive(Drop)]
pub struct Arena<'a> {
    cells: &'a mut [i64],
    top: usize,
    ghost within: { top ≤ length cells.now },
}

impl<'a> Arena<'a> {
    // Over these numbers; none of them stands yet.
    pub fn new(cells: &'a mut [i64]) -> Arena<'a>
        ensures top { result.top ≡ 0 }
        ensures lent { result.cells ≡ cells.entry }
    {
        Arena { cells, top: 0 }
    }
}

impl Arena<'_> {
    ghost use Rattle.arena.specs.Standing.{standing, GrownBy, pushed, all_pushed};

    // How many numbers stand: the mark to go back to.
    pub fn top(&self) -> usize
        ensures { result ≡ self.now.top }
    {
        self.top
    }

    // How many more can be pushed.
    pub fn room(&self) -> usize
        ensures { result + self.now.top ≡ length self.now.cells.now }
    {
        self.cells.len() - self.top
    }

    // One more number on top, unless all are in use.
    pub fn push(&mut self, value: i64) -> Result<(), Full>
        ensures stands { pushed result value self.old self.new }
        ensures lent { self.new.cells.ghost_name ≡ self.old.cells.ghost_name }
    {
        if self.top == self.cells.len() {
            return Err(Full);
        }
        self.put(value);
        Ok(())
    }

    // One more number on top, where there is room for it.
    pub fn put(&mut self, value: i64)
        requires { self.old.top < length self.old.cells.now }
        ensures stands { GrownBy (value ∷ []) self.old self.new }
        ensures lent { self.new.cells.ghost_name ≡ self.old.cells.ghost_name }
    {
        self.cells[self.top] = value;
        self.top += 1;
    }

    // All these numbers on top, unless there is no room for all of them.
    pub fn push_all(&mut self, values: &[i64]) -> Result<(), Full>
        ensures stands { all_pushed result values.now self.old self.new }
        ensures lent { self.new.cells.ghost_name ≡ self.old.cells.ghost_name }
    {
        if self.room() < values.len() {
            return Err(Full);
        }
        let top = self.top + values.len();
        self.cells[self.top..top].copy_from_slice(values);
        self.top = top;
        Ok(())
    }

    // The number at a place that stands.
    pub fn read(&self, i: usize) -> Option<i64>
        ensures { result ≡ slice_get (standing self.now) i }
    {
        self.part(0, self.top).get(i).copied()
    }

    // So many of the numbers that stand, from this place on.
    pub fn part(&self, from: usize, count: usize) -> &[i64]
        requires { from + count ≤ self.now.top }
        ensures { result.now ≡ take count (drop from self.now.cells.now) }
    {
        &self.cells[from..from + count]
    }

    // Back to a mark: what was pushed since then no longer stands.
    pub fn release(&mut self, mark: usize)
        requires { mark ≤ self.old.top }
        ensures top { self.new.top ≡ mark }
        ensures cells { self.new.cells.now ≡ self.old.cells.now }
        ensures lent { self.new.cells.ghost_name ≡ self.old.cells.ghost_name }
    {
        self.top = mark;
    }

    // Back to the beginning.
    pub fn clear(&mut self)
        ensures top { self.new.top ≡ 0 }
        ensures cells { self.new.cells.now ≡ self.old.cells.now }
        ensures lent { self.new.cells.ghost_name ≡ self.old.cells.ghost_name }
    {
        self.top = 0;
    }
}

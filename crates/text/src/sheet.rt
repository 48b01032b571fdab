// Words as they are written, as many as a sentence may have; of more it is only known that they are too many.
ghost use Rattle.std.specs.Prelude.{◌≡◌, ◌+◌, ◌≤◌, min};
ghost use Rattle.text.specs.Sheet.{Puts, Inserts, Negates, Repeats, Copies, Multiplies, Raises, Exchanges, Compares, Subtracts, SubtractsFrom, Implies, Equates, Joins};
ghost use Rattle.words.specs.Kind.{kind_word};

use crate::row::Row;
use grammar::relation::Relation;
use words::kind::Kind;

// How many words a sentence may have.
pub const CAPACITY: usize = 1024;

// The place three words on.
fn three_on(place: usize) -> usize
    ensures { result ≡ min (place + 3) 1025 }
{
    place.saturating_add(3).min(CAPACITY + 1)
}

// Fixed memory, in which no write fails: what comes past the capacity is only counted.
pub struct Sheet {
    pub words: [i64; 1024],
    // one past the capacity where there are too many
    pub count: usize,
}

impl Sheet {
    // A word more at the end.
    pub fn put(&mut self, word: i64)
        ensures { Puts word self.old self.new }
    {
        if self.count < CAPACITY {
            self.words[self.count] = word;
            self.count += 1;
        } else {
            self.count = CAPACITY + 1;
        }
    }

    // A word more in front of those that begin at `from`.
    pub fn insert(&mut self, from: usize, word: i64)
        ensures { Inserts from word self.old self.new }
    {
        self.put(word);
        if from < self.count && self.count <= CAPACITY {
            self.words[from..self.count].rotate_right(1);
        }
    }

    // The word of a kind at the end.
    pub fn put_kind(&mut self, kind: Kind)
        ensures { Puts (kind_word kind) self.old self.new }
    {
        self.put(kind.into());
    }

    // The word of a kind in front of the words that begin at `from`.
    pub fn insert_kind(&mut self, from: usize, kind: Kind)
        ensures { Inserts from (kind_word kind) self.old self.new }
    {
        self.insert(from, kind.into());
    }

    // Minus one times the term that begins at `from`.
    pub fn negate(&mut self, from: usize)
        ensures { Negates from self.old self.new }
    {
        self.insert(from, -1);
        self.insert_kind(from, Kind::Number);
        self.insert_kind(from, Kind::Product);
    }

    // The words between two places once more at the end.
    pub fn repeat(&mut self, from: usize, to: usize)
        ensures { Repeats from to self.old self.new }
    {
        if to > CAPACITY {
            return;
        }
        // by index, since `put` writes to the words that are read; copy_within would need `put`'s test of room again
        for i in from..to {
            self.put(self.words[i]);
        }
    }

    // The words between two places at the end, so many times.
    fn copy(&mut self, from: usize, to: usize, times: u8)
        ensures { Copies times from to self.old self.new }
    {
        for _turn in 0..times {
            self.repeat(from, to);
        }
    }

    // Signs of a product in front of those that begin at `from`, so many.
    fn multiply(&mut self, from: usize, times: u8)
        ensures { Multiplies times from self.old self.new }
    {
        for _turn in 0..times {
            self.insert_kind(from, Kind::Product);
        }
    }

    // The power of the term that begins at `from`.
    pub fn raise(&mut self, from: usize, exponent: u8)
        requires { 1 ≤ exponent }
        ensures { Raises exponent from self.old self.new }
    {
        let to = self.count;
        self.copy(from, to, exponent - 1);
        self.multiply(from, exponent - 1);
    }

    // The words from `from` on behind those from `middle` on.
    pub fn exchange(&mut self, from: usize, middle: usize)
        ensures { Exchanges from middle self.old self.new }
    {
        if from <= middle && middle <= self.count && self.count <= CAPACITY {
            self.words[from..self.count].rotate_left(middle - from);
        }
    }

    // The comparison of the term that begins at `from` with the one that begins at `middle`.
    pub fn compare(&mut self, relation: Relation, from: usize, middle: usize)
        ensures { Compares relation from middle self.old self.new }
    {
        match relation {
            Relation::Below => {
                self.subtract(from, middle);
                self.insert_kind(from, Kind::BelowZero);
            }
            Relation::AtMost => {
                self.subtract_from(from, middle);
                self.insert_kind(from, Kind::BelowZero);
                self.insert_kind(from, Kind::Not);
            }
            Relation::Equal => {
                self.subtract(from, middle);
                self.insert_kind(from, Kind::EqualsZero);
            }
            Relation::Unequal => {
                self.subtract(from, middle);
                self.insert_kind(from, Kind::EqualsZero);
                self.insert_kind(from, Kind::Not);
            }
            Relation::Above => {
                self.subtract_from(from, middle);
                self.insert_kind(from, Kind::BelowZero);
            }
            Relation::AtLeast => {
                self.subtract(from, middle);
                self.insert_kind(from, Kind::BelowZero);
                self.insert_kind(from, Kind::Not);
            }
        }
    }

    // The first term without the second.
    fn subtract(&mut self, from: usize, middle: usize)
        ensures { Subtracts from middle self.old self.new }
    {
        self.negate(middle);
        self.insert_kind(from, Kind::Sum);
    }

    // The second term without the first.
    fn subtract_from(&mut self, from: usize, middle: usize)
        ensures { SubtractsFrom from middle self.old self.new }
    {
        self.negate(from);
        self.exchange(from, three_on(middle));
        self.insert_kind(from, Kind::Sum);
    }

    // In front of what follows from the formula that begins at `from`.
    pub fn imply(&mut self, from: usize)
        ensures { Implies from self.old self.new }
    {
        self.insert_kind(from, Kind::Not);
        self.insert_kind(from, Kind::Or);
    }

    // That the formula that begins at `from` and the one that begins at `middle` imply each other.
    pub fn equate(&mut self, from: usize, middle: usize)
        ensures { Equates from middle self.old self.new }
    {
        let end = self.count;
        self.put_kind(Kind::Or);
        self.put_kind(Kind::Not);
        self.repeat(middle, end);
        self.repeat(from, middle);
        self.imply(from);
        self.insert_kind(from, Kind::And);
    }

    // The formula that begins at `from` with the one that begins at `middle`.
    pub fn join(&mut self, row: Row, from: usize, middle: usize)
        ensures { Joins row from middle self.old self.new }
    {
        match row {
            Row::Conjunction => self.insert_kind(from, Kind::And),
            Row::Disjunction => self.insert_kind(from, Kind::Or),
            Row::Equivalence => self.equate(from, middle),
        }
    }
}

// Formulas, a method for each level of binding; a term stands for itself until a sign of comparison makes it one.
ghost use Rattle.std.specs.Prelude.{◌≡◌, slice_index};
ghost use Rattle.grammar.specs.Formulas.{begins_relation, relation_of, or_equal, comparison_of, from_product, from_primary, denied, from_word, enclosed, atom_of, row_next, row_for, disjunction, arrow_behind, chain_next, chained, implication};
ghost use Rattle.grammar.specs.Nesting.{nest};
ghost use Rattle.grammar.specs.Reader.{run};
ghost use Rattle.grammar.specs.Tokens.{longest};
ghost use Rattle.text.specs.Claims.{WritesPiece, ExtendsPiece, ExtendsClaim, NextClaim, ArrowNext, ExtendsChain};
ghost use Rattle.text.specs.Outcome.{outcome_of};
ghost use Rattle.text.specs.Row.{first_of, between_of, join_of, operand_of, row_of};

use crate::character::is_letter;
use crate::claim::Claim;
use crate::draft::Draft;
use crate::row::Row;
use crate::source::{LONGEST, Source};
use crate::term::is_word;
use grammar::fault::Fault;
use grammar::relation::Relation;
use grammar::word::Word;
use words::kind::Kind;

pub fn begins_relation(c: u8) -> bool
    ensures { result ≡ begins_relation c }
{
    matches!(c, b'<' | b'>' | b'=' | b'!')
}

impl Source<'_> {
    // Once the first sign has been passed.
    fn or_equal(&self, at: &mut usize, strict: Relation, weak: Relation) -> Result<Relation, Fault>
        ensures { run (or_equal strict weak) self.now.text.now at.old ≡ outcome_of result at.new }
    {
        if self.front(*at) == b'=' {
            self.sign(at, b"=")?;
            return Ok(weak);
        }
        self.blanks(at);
        Ok(strict)
    }

    // A sign of comparison.
    fn relation(&self, at: &mut usize) -> Result<Relation, Fault>
        ensures { run (relation_of (slice_index self.now.text.now at.old)) self.now.text.now at.old ≡ outcome_of result at.new }
    {
        match self.front(*at) {
            b'<' => {
                self.pass(at);
                self.or_equal(at, Relation::Below, Relation::AtMost)
            }
            b'>' => {
                self.pass(at);
                self.or_equal(at, Relation::Above, Relation::AtLeast)
            }
            b'=' => {
                self.sign(at, b"=")?;
                Ok(Relation::Equal)
            }
            _ => {
                self.sign(at, b"!=")?;
                Ok(Relation::Unequal)
            }
        }
    }

    // A term, or its comparison with another.
    fn comparison(
        &self,
        draft: &mut Draft,
        depth: usize,
        from: usize,
    ) -> Result<Option<Claim>, Fault>
        ensures { ExtendsPiece self.now (λ t. comparison_of self.now.names.now (nest self.now.names.now depth) t (slice_index self.now.text.now draft.old.at)) result from draft.old draft.new }
    {
        if !begins_relation(self.front(draft.at)) {
            return Ok(None);
        }
        let relation = self.relation(&mut draft.at)?;
        let middle = draft.sheet.count;
        let arrow = self.sum(draft, depth, true)?;
        draft.sheet.compare(relation, from, middle);
        Ok(Some(Claim { arrow }))
    }

    // A term goes on as a sum, which may be compared.
    fn from_product(
        &self,
        draft: &mut Draft,
        depth: usize,
        from: usize,
    ) -> Result<Option<Claim>, Fault>
        ensures { ExtendsPiece self.now (from_product self.now.names.now (nest self.now.names.now depth)) result from draft.old draft.new }
    {
        self.plus(draft, depth, false, from)?;
        self.comparison(draft, depth, from)
    }

    fn from_primary(
        &self,
        draft: &mut Draft,
        depth: usize,
        from: usize,
    ) -> Result<Option<Claim>, Fault>
        ensures { ExtendsPiece self.now (from_primary self.now.names.now (nest self.now.names.now depth)) result from draft.old draft.new }
    {
        self.raised(draft, from)?;
        self.times(draft, depth, from)?;
        self.from_product(draft, depth, from)
    }

    // What `not` denies.
    #[cycle(formula_levels)]
    fn denied(&self, draft: &mut Draft, depth: usize) -> Result<Option<Claim>, Fault>
        ensures { WritesPiece self.now (denied (nest self.now.names.now depth)) result draft.old draft.new }
    {
        self.blanks(&mut draft.at);
        if depth == 0 {
            return Err(Fault::Deep);
        }
        let from = draft.sheet.count;
        let claim = self.atom(draft, depth - 1)?.ok_or(Fault::Unfit)?;
        draft.sheet.insert_kind(from, Kind::Not);
        Ok(Some(claim))
    }

    // `not` with what it denies, or a name.
    #[cycle(formula_levels)]
    fn from_word(&self, draft: &mut Draft, depth: usize, word: Word) -> Result<Option<Claim>, Fault>
        ensures { WritesPiece self.now (from_word self.now.names.now (nest self.now.names.now depth) word) result draft.old draft.new }
    {
        if is_word(word, b"not\0\0\0\0\0") {
            return self.denied(draft, depth);
        }
        let from = draft.sheet.count;
        self.named(draft, word)?;
        self.from_primary(draft, depth, from)
    }

    // A formula in parentheses, or a term that begins with one.
    #[cycle(formula_levels)]
    fn enclosed(&self, draft: &mut Draft, depth: usize) -> Result<Option<Claim>, Fault>
        ensures { WritesPiece self.now (enclosed self.now.names.now (nest self.now.names.now depth)) result draft.old draft.new }
    {
        let from = draft.sheet.count;
        self.sign(&mut draft.at, b"(")?;
        if depth == 0 {
            return Err(Fault::Deep);
        }
        let piece = self.row(draft, depth - 1, Row::Equivalence)?;
        self.sign(&mut draft.at, b")")?;
        match piece {
            None => self.from_primary(draft, depth, from),
            Some(claim) => Ok(Some(claim)),
        }
    }

    // What `and` joins, or a term.
    #[cycle(formula_levels)]
    pub fn atom(&self, draft: &mut Draft, depth: usize) -> Result<Option<Claim>, Fault>
        ensures { WritesPiece self.now (atom_of self.now.names.now (nest self.now.names.now depth) (slice_index self.now.text.now draft.old.at)) result draft.old draft.new }
    {
        let from = draft.sheet.count;
        match self.front(draft.at) {
            b'(' => self.enclosed(draft, depth),
            b'-' => {
                self.negated(draft, depth)?;
                self.from_product(draft, depth, from)
            }
            c if is_letter(c) => {
                let word = self.letters(&mut draft.at)?;
                self.from_word(draft, depth, word)
            }
            _ => {
                self.primary(draft, depth)?;
                self.from_primary(draft, depth, from)
            }
        }
    }

    // What joins a row.
    fn between(&self, at: &mut usize, row: Row) -> Result<(), Fault>
        ensures { run (between_of row) self.now.text.now at.old ≡ outcome_of result at.new }
    {
        match row {
            Row::Conjunction => self.keyword(at, b"and"),
            Row::Disjunction => self.keyword(at, b"or"),
            Row::Equivalence => self.sign(at, b"<->"),
        }
    }

    // A formula of the level below a row, or a term.
    #[cycle(formula_levels)]
    fn operand(&self, draft: &mut Draft, depth: usize, row: Row) -> Result<Option<Claim>, Fault>
        ensures { WritesPiece self.now (operand_of row self.now.names.now (nest self.now.names.now depth)) result draft.old draft.new }
    {
        match row {
            Row::Conjunction => self.atom(draft, depth),
            Row::Disjunction => self.row(draft, depth, Row::Conjunction),
            Row::Equivalence => self.implication(draft, depth),
        }
    }

    // A formula more of a row.
    #[cycle(formula_levels)]
    fn row_next(
        &self,
        draft: &mut Draft,
        depth: usize,
        row: Row,
        from: usize,
    ) -> Result<Claim, Fault>
        ensures { NextClaim self.now (row_next (between_of row) (join_of row) (operand_of row self.now.names.now (nest self.now.names.now depth))) result from draft.old draft.new }
    {
        self.between(&mut draft.at, row)?;
        let middle = draft.sheet.count;
        let claim = self.operand(draft, depth, row)?.ok_or(Fault::Unfit)?;
        draft.sheet.join(row, from, middle);
        Ok(claim)
    }

    // The formulas of a row behind its first one.
    #[cycle(formula_levels)]
    fn row_on(
        &self,
        draft: &mut Draft,
        depth: usize,
        row: Row,
        from: usize,
        mut claim: Claim,
    ) -> Result<Claim, Fault>
        ensures { ExtendsClaim self.now (row_for longest (first_of row) (between_of row) (join_of row) (operand_of row self.now.names.now (nest self.now.names.now depth))) claim result from draft.old draft.new }
    {
        for _turn in 0..LONGEST {
            if claim.arrow || self.front(draft.at) != row.first() {
                return Ok(claim);
            }
            claim = self.row_next(draft, depth, row, from)?;
        }
        Ok(claim)
    }

    // A row of formulas, or a term.
    #[cycle(formula_levels)]
    pub fn row(&self, draft: &mut Draft, depth: usize, row: Row) -> Result<Option<Claim>, Fault>
        ensures { WritesPiece self.now (row_of row self.now.names.now (nest self.now.names.now depth)) result draft.old draft.new }
    {
        let from = draft.sheet.count;
        let Some(first) = self.operand(draft, depth, row)? else {
            return Ok(None);
        };
        let last = self.row_on(draft, depth, row, from, first)?;
        Ok(Some(last))
    }

    // The arrow behind a formula, if it hasn't been read.
    fn arrow_behind(&self, at: &mut usize, claim: Claim) -> Result<(), Fault>
        ensures { run (arrow_behind claim.arrow) self.now.text.now at.old ≡ outcome_of result at.new }
    {
        if claim.arrow {
            return Ok(());
        }
        self.sign(at, b"->")
    }

    // A formula more, behind an arrow.
    #[cycle(formula_levels)]
    fn arrow_next(&self, draft: &mut Draft, depth: usize, claim: Claim) -> Result<Claim, Fault>
        ensures { ArrowNext self.now (chain_next (disjunction self.now.names.now (nest self.now.names.now depth))) claim result draft.old draft.new }
    {
        self.arrow_behind(&mut draft.at, claim)?;
        self.row(draft, depth, Row::Disjunction)?
            .ok_or(Fault::Unfit)
    }

    // The formulas behind a first one, joined by arrows.
    #[cycle(formula_levels)]
    fn chained(
        &self,
        draft: &mut Draft,
        depth: usize,
        mut from: usize,
        mut claim: Claim,
    ) -> Result<(), Fault>
        ensures { ExtendsChain self.now (chained (disjunction self.now.names.now (nest self.now.names.now depth))) claim result from draft.old draft.new }
    {
        for _turn in 0..LONGEST {
            if !claim.arrow && self.front(draft.at) != b'-' {
                return Ok(());
            }
            draft.sheet.imply(from);
            from = draft.sheet.count;
            claim = self.arrow_next(draft, depth, claim)?;
        }
        Ok(())
    }

    #[cycle(formula_levels)]
    pub fn implication(&self, draft: &mut Draft, depth: usize) -> Result<Option<Claim>, Fault>
        ensures { WritesPiece self.now (implication self.now.names.now (nest self.now.names.now depth)) result draft.old draft.new }
    {
        let from = draft.sheet.count;
        let Some(first) = self.row(draft, depth, Row::Disjunction)? else {
            return Ok(None);
        };
        self.chained(draft, depth, from, first)?;
        Ok(Some(Claim { arrow: false }))
    }
}

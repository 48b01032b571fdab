// Remainders of stored polynomials in their first variable, with the sign that they have at a real point.
ghost use Rattle.std.specs.Prelude.{◌≡◌, ℕ, suc, ◌+◌, ◌^◌, ◌<◌, ◌≤◌, length, nat_le};
ghost use Rattle.terms.specs.LeadingTerms.{length_terms};
ghost use Rattle.terms.specs.DivisionTerms.{step_terms};
ghost use Rattle.packed.specs.Terms.{terms_in};
ghost use Rattle.storage.specs.Storing.{stored};
ghost use Rattle.poly.specs.Poly.{Poly};
ghost use Rattle.terms.specs.Operations.{neg_terms};
ghost use Rattle.storage.specs.Denoting.{Denotes};
ghost use Rattle.storage.specs.Dividing.{exchanges_sign, divided, remains};
ghost use Rattle.storage.specs.Spans.{Holds, terms_at};

use crate::pack::{TooBig, pack_at};
use crate::span::Span;
use arena::arena::Arena;
use field::sign::Sign;
use packed::variables::Variables;
use packed::view::View;
use wide::scratch::Scratch;

// What is stored at a span.
pub fn view<'a>(arena: &'a Arena, span: Span) -> View<'a>
    requires { Holds span arena.now.top arena.now.cells.now }
    ensures { terms_in result ≡ terms_at span arena.now.cells.now }
{
    View::new(arena.part(span.from, span.count))
}

// A division in progress or at its end.
#[derive(Clone, Copy)]
pub struct Quotient {
    pub steps: u64,
    pub rest: Span,
}

// A polynomial to divide by, in one variable and `others` more.
// The scratch and the arena are two parameters: as one struct they would be named one step deeper in every clause, and what reads or packs takes just the arena.
#[derive(Clone, Copy)]
pub struct Divisor {
    pub span: Span,
    pub others: Variables,
    pub ghost few: { others.count < 4 },
}

impl Divisor {
    // The remainder of the dividend by a divisor that isn't zero, its sign exchanged where the count of steps is odd and the divisor's leading coefficient negative.
    // It lies at the arena's old top, or is the dividend itself if there was no step; where a step isn't modest the arena is left at its old top.
    pub fn remainder(
        self,
        scratch: &mut Scratch,
        arena: &mut Arena,
        dividend: Span,
        leading: Sign,
    ) -> Result<Span, TooBig>
        requires divisor { (Holds self.span arena.old.top arena.old.cells.now) × (((p : Poly) × Denotes (suc self.others.count) (terms_at self.span arena.old.cells.now) p)) }
        requires dividend { (Holds dividend arena.old.top arena.old.cells.now) × (((s : Poly) × Denotes (suc self.others.count) (terms_at dividend arena.old.cells.now) s)) }
        requires real { 0 < length_terms self.others.count (terms_at self.span arena.old.cells.now) }
        requires room { arena.old.top + 64 ≤ length arena.old.cells.now }
        ensures value { remains result self.others.count leading (terms_at self.span arena.old.cells.now) (terms_at dividend arena.old.cells.now) arena.old.top arena.old.cells.now arena.new.top arena.new.cells.now }
        ensures lent { arena.new.cells.ghost_name ≡ arena.old.cells.ghost_name }
    {
        let mark = arena.top();
        let quotient = self.divide(scratch, arena, dividend)?;
        if exchanges(quotient.steps, leading) {
            let count = exchange(scratch, arena, mark, quotient.rest)?;
            return Ok(Span { from: mark, count });
        }
        Ok(quotient.rest)
    }

    // Divides until what is left has fewer coefficients than the divisor.
    fn divide(
        self,
        scratch: &mut Scratch,
        arena: &mut Arena,
        dividend: Span,
    ) -> Result<Quotient, TooBig>
        requires divisor { (Holds self.span arena.old.top arena.old.cells.now) × (((p : Poly) × Denotes (suc self.others.count) (terms_at self.span arena.old.cells.now) p)) }
        requires dividend { (Holds dividend arena.old.top arena.old.cells.now) × (((s : Poly) × Denotes (suc self.others.count) (terms_at dividend arena.old.cells.now) s)) }
        requires real { 0 < length_terms self.others.count (terms_at self.span arena.old.cells.now) }
        requires room { arena.old.top + 64 ≤ length arena.old.cells.now }
        ensures value { divided result self.others.count (terms_at self.span arena.old.cells.now) (terms_at dividend arena.old.cells.now) arena.old.top arena.old.cells.now arena.new.top arena.new.cells.now }
        ensures lent { arena.new.cells.ghost_name ≡ arena.old.cells.ghost_name }
    {
        let mark = arena.top();
        let most = view(arena, dividend).coefficient_count(self.others) + 1;
        let mut rest = dividend;
        for steps in 0..most {
            if !self.has_step(arena, rest) {
                return Ok(Quotient { steps, rest });
            }
            let count = self.divide_once(scratch, arena, mark, rest)?;
            rest = Span { from: mark, count };
        }
        Ok(Quotient { steps: most, rest })
    }

    // Whether the dividend has at least as many coefficients as the divisor.
    fn has_step(self, arena: &Arena, dividend: Span) -> bool
        requires spans { (Holds self.span arena.now.top arena.now.cells.now) × (Holds dividend arena.now.top arena.now.cells.now) }
        ensures { result ≡ nat_le (length_terms self.others.count (terms_at self.span arena.now.cells.now)) (length_terms self.others.count (terms_at dividend arena.now.cells.now)) }
    {
        view(arena, self.span).coefficient_count(self.others)
            <= view(arena, dividend).coefficient_count(self.others)
    }

    // One step of the division, stored at the mark in place of what stood there.
    fn divide_once(
        self,
        scratch: &mut Scratch,
        arena: &mut Arena,
        mark: usize,
        dividend: Span,
    ) -> Result<usize, TooBig>
        requires spans { (Holds self.span arena.old.top arena.old.cells.now) × (Holds dividend arena.old.top arena.old.cells.now) }
        requires real { 0 < length_terms self.others.count (terms_at self.span arena.old.cells.now) }
        requires over { length_terms self.others.count (terms_at self.span arena.old.cells.now) ≤ length_terms self.others.count (terms_at dividend arena.old.cells.now) }
        requires room { (mark ≤ arena.old.top) × (mark + 64 ≤ length arena.old.cells.now) }
        ensures stored { stored result (step_terms self.others.count (terms_at self.span arena.old.cells.now) (terms_at dividend arena.old.cells.now)) mark arena.old.cells.now arena.new.top arena.new.cells.now }
        ensures lent { arena.new.cells.ghost_name ≡ arena.old.cells.ghost_name }
    {
        scratch.division_step(view(arena, self.span), view(arena, dividend), self.others);
        pack_at(&scratch.front, arena, mark)
    }
}

// Whether an odd number of steps by a negative leading coefficient has turned the sign.
fn exchanges(steps: u64, leading: Sign) -> bool
    ensures { result ≡ exchanges_sign steps leading }
{
    leading == Sign::Neg && steps % 2 == 1
}

// The negative of what is stored at a span, stored at the mark in place of what stood there.
fn exchange(
    scratch: &mut Scratch,
    arena: &mut Arena,
    mark: usize,
    span: Span,
) -> Result<usize, TooBig>
    requires span { Holds span arena.old.top arena.old.cells.now }
    requires room { (mark ≤ arena.old.top) × (mark + 64 ≤ length arena.old.cells.now) }
    ensures stored { stored result (neg_terms (terms_at span arena.old.cells.now)) mark arena.old.cells.now arena.new.top arena.new.cells.now }
    ensures lent { arena.new.cells.ghost_name ≡ arena.old.cells.ghost_name }
{
    scratch.negative(view(arena, span));
    pack_at(&scratch.front, arena, mark)
}

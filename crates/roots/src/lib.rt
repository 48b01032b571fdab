// The roots of polynomials in one variable over any real closed field. Rests on field.
#![tactic(auto)]

ghost use Rattle.roots.specs.Analysis.{Analysis};

use field::real_closed::RealClosed;

// Over every real closed field the statements of specs/Analysis.antt hold.
pub fn analysis_stands<F: RealClosed>()
    ensures { Analysis F.field }
{}

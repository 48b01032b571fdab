// Polynomials in n variables with whole coefficients: their definitions stand in specs/, and each function below has a theorem of specs/Theorems.antt for its contract.
#![tactic(auto)]

ghost use Rattle.poly.specs.Theorems.{DepthLaws, ValueLaws, EqualityLaws, LeadingLaws, DerivativeLaws, RemainderLaws};

use field::real_closed::RealClosed;

pub fn depths_stand()
    ensures { DepthLaws }
{}

pub fn values_stand<F: RealClosed>()
    ensures { ValueLaws F.field }
{}

pub fn equality_stands<F: RealClosed>()
    ensures { EqualityLaws F.field }
{}

pub fn leading_stands<F: RealClosed>()
    ensures { LeadingLaws F.field }
{}

pub fn derivative_stands<F: RealClosed>()
    ensures { DerivativeLaws F.field }
{}

pub fn remainder_stands<F: RealClosed>()
    ensures { RemainderLaws F.field }
{}

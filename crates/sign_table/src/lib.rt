// Tables of signs of polynomials: the definitions stand in specs/, and each function below has a theorem of specs/Theorems.antt for its contract.
#![tactic(auto)]

ghost use Rattle.sign_table.specs.Theorems.{TableDepth, TableRight, RightCovers, RootsExactly};

use field::real_closed::RealClosed;

pub fn table_depth_stands()
    ensures { TableDepth }
{}

pub fn table_right_stands<F: RealClosed>()
    ensures { TableRight F.field }
{}

pub fn right_covers_stands<F: RealClosed>()
    ensures { RightCovers F.field }
{}

pub fn roots_exactly_stands<F: RealClosed>()
    ensures { RootsExactly F.field }
{}

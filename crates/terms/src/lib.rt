// Polynomials as lists of monomials with keys: their definitions stand in specs/, and each function below has a theorem of specs/Theorems.antt for its contract.
#![tactic(auto)]

ghost use Rattle.terms.specs.Theorems.{FlatLaws, CanonLaws, FlatOperationLaws, FlatLeadingLaws, FlatModestLaws, FlatDivisionLaws, SizeLaws, CellLaws};

pub fn flat_stands()
    ensures { FlatLaws }
{}

pub fn canon_stands()
    ensures { CanonLaws }
{}

pub fn operations_stand()
    ensures { FlatOperationLaws }
{}

pub fn leading_stands()
    ensures { FlatLeadingLaws }
{}

pub fn modest_stands()
    ensures { FlatModestLaws }
{}

pub fn division_stands()
    ensures { FlatDivisionLaws }
{}

pub fn sizes_stand()
    ensures { SizeLaws }
{}

pub fn cells_stand()
    ensures { CellLaws }
{}

// The tree of a table made step by step: the definitions stand in specs/, and each function below has a theorem of specs/Theorems.antt for its contract.
#![tactic(auto)]

ghost use Rattle.machine.specs.Theorems.{MakesTable, Ends, LeavesApart, Counts, Collects, GivesUp, EliminatesBySteps, FirstSuffice, StacksMirror};

pub fn table_made_stands()
    ensures { MakesTable }
{}

pub fn ends_stands()
    ensures { Ends }
{}

pub fn leaves_apart_stands()
    ensures { LeavesApart }
{}

pub fn counts_stand()
    ensures { Counts }
{}

pub fn collects_stands()
    ensures { Collects }
{}

pub fn gives_up_stands()
    ensures { GivesUp }
{}

pub fn elimination_stands()
    ensures { EliminatesBySteps }
{}

pub fn first_suffice_stands()
    ensures { FirstSuffice }
{}

pub fn stacks_mirror_stands()
    ensures { StacksMirror }
{}

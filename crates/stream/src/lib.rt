// Tables whose rows are never stored: each table takes the rows of the one within it, one by one, and hands on its own. The definitions stand in specs/, and each function below has a theorem of specs/Theorems.antt for its contract.
#![tactic(auto)]

pub mod way;

ghost use Rattle.stream.specs.Theorems.{FlowDeduces, PlanSuffices, PushAdvances, CloseAnswers, RunResumes, RowsFold, LeafStreams, QuantifierStreams};

pub fn flow_stands()
    ensures { FlowDeduces }
{}

pub fn plan_stands()
    ensures { PlanSuffices }
{}

pub fn push_stands<S>()
    ensures { PushAdvances S }
{}

pub fn close_stands<S>()
    ensures { CloseAnswers S }
{}

pub fn run_stands<S>()
    ensures { RunResumes S }
{}

pub fn fold_stands()
    ensures { RowsFold }
{}

pub fn leaf_stands<S>()
    ensures { LeafStreams S }
{}

pub fn quantifier_stands()
    ensures { QuantifierStreams }
{}

// Sentences decided by elimination of their quantifiers: the definitions stand in specs/, and each function below has a theorem of specs/Theorems.antt for its contract.
#![tactic(auto)]

ghost use Rattle.decision.specs.Theorems.{Main, OneQuantifier, AnswersRight};

use field::real_closed::RealClosed;

// Every sentence that is answered yes holds, and every one that is answered no doesn't.
pub fn whole_stands<F: RealClosed>()
    ensures { Main F.field }
{}

// The same of one quantifier.
pub fn one_quantifier_stands<F: RealClosed>()
    ensures { OneQuantifier F.field }
{}

// The same of words and the answers to them.
pub fn answers_stand<F: RealClosed>()
    ensures { AnswersRight F.field }
{}

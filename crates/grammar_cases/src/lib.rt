// Examples of texts, which read as the definitions say.
#![tactic(auto)]

ghost use Rattle.grammar_cases.specs.Cases.{CasesHold};

pub fn cases_stand()
    ensures { CasesHold }
{}

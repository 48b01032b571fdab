// Examples of sentences, whose answers are computed as the definitions say.
#![tactic(auto)]

ghost use Rattle.cases.specs.Cases.{CasesHold};

pub fn cases_stand()
    ensures { CasesHold }
{}

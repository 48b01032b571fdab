// What is promised of the arrays.
ghost use Rattle.stacks.specs.SlotLaws.{SlotLaws};

pub fn slots_stand()
    ensures { SlotLaws }
{}

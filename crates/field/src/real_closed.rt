// A real closed field as a ghost member: no type of a program is one, and a theorem about every `F: RealClosed` speaks of all that could be.
ghost use Rattle.field.specs.Field.{RealClosedField};
ghost use Rattle.field.specs.Laws.{FieldLaws};

pub trait RealClosed {
    ghost field: { RealClosedField Self };
}

// Every real closed field has the laws of specs/Laws.antt.
pub fn laws_stand<F: RealClosed>()
    ensures { FieldLaws F.field }
{}

// What sound arrays give to the steps of the machine.
ghost use Rattle.table_machine.specs.SoundLaws.{SoundLaws};

pub fn sound_stands()
    ensures { SoundLaws }
{}

// What stored lists say of the polynomials that they stand for.
ghost use Rattle.storage.specs.Denoting.{DenotingLaws};

pub fn denoting_stands()
    ensures { DenotingLaws }
{}

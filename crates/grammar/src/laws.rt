// What is known of every text, by what stands at its front.
ghost use Rattle.grammar.specs.RefusedForGood.{RefusedForGood};

pub fn refused_for_good_stands()
    ensures { RefusedForGood }
{}

// Quantifiers with the names that they bind.
ghost use Rattle.std.specs.Prelude.{◌≤◌};

use grammar::word::Word;
use words::quantifier::Quantifier;

// A quantifier with the name that it binds.
#[derive(Clone, Copy)]
pub struct Bound {
    pub quantifier: Quantifier,
    pub name: Word,
}

// At most four quantifiers, in fixed memory.
#[derive(Clone, Copy)]
pub struct Prefix {
    // the innermost first, as many as are counted
    pub quantifiers: [Bound; 4],
    pub count: usize,
    ghost few: { count ≤ 4 },
}

// Rows of formulas, joined to the left.
ghost use Rattle.std.specs.Prelude.{◌≡◌};
ghost use Rattle.text.specs.Row.{first_of};

#[derive(Clone, Copy, PartialEq, Eq, Debug)]
pub enum Row {
    // joined by `and`
    Conjunction,
    // joined by `or`
    Disjunction,
    // joined by `<->`
    Equivalence,
}

impl Row {
    // The first character of what joins the formulas.
    pub(crate) fn first(self) -> u8
        ensures { result ≡ first_of self }
    {
        match self {
            Row::Conjunction => b'a',
            Row::Disjunction => b'o',
            Row::Equivalence => b'<',
        }
    }
}

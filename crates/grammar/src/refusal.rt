// Why a text is refused, and where. Places count characters from 1.
ghost use Rattle.std.specs.Prelude.{◌≡◌};
ghost use Rattle.grammar.specs.Refusal.{number_of, place_of};

#[derive(Clone, Copy, PartialEq, Eq, Debug)]
pub enum Refusal {
    // The first character that can belong to no text that begins like this.
    Misfit(usize),
    // Nested too deep, or too many words or characters.
    TooLarge,
    // The first letter of a name that isn't quantified, or is quantified twice.
    WrongName(usize),
}

impl Refusal {
    pub fn number(self) -> u8
        ensures { result ≡ number_of self }
    {
        match self {
            Refusal::Misfit(_) => 5,
            Refusal::TooLarge => 6,
            Refusal::WrongName(_) => 7,
        }
    }

    pub fn place(self) -> Option<usize>
        ensures { result ≡ place_of self }
    {
        match self {
            Refusal::Misfit(place) | Refusal::WrongName(place) => Some(place),
            Refusal::TooLarge => None,
        }
    }
}

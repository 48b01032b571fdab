// The first `count` monomials of the polynomial in a slot, or all of them if it has fewer.
ghost use Rattle.std.specs.Prelude.{◌≡◌};

use stacks::marks::Fact;

#[derive(Clone, Copy)]
pub struct Front {
    pub slot: u16,
    pub count: u16,
}

// What a fact is about.
impl From<Fact> for Front {
    ghost from_gives = { λ fact front. front ≡ record { slot = fact.slot; count = fact.count } };

    fn from(fact: Fact) -> Front {
        Front {
            slot: fact.slot,
            count: fact.count,
        }
    }
}

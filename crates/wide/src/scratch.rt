// Two lists of monomials: a sum is written to the one behind, which then becomes the one in front.
ghost use Rattle.std.specs.Prelude.{◌≡◌, []};
ghost use Rattle.terms.specs.Operations.{add_terms, add_product};
ghost use Rattle.packed.specs.Terms.{terms_in};
ghost use Rattle.packed.specs.StretchTerms.{stretch_terms};
ghost use Rattle.wide.specs.Written.{written};
ghost use Rattle.wide.specs.Merging.{Addable, scaled_by};
ghost use Rattle.wide.specs.Multiplying.{OneProduct};

use crate::merge::add_scaled;
use crate::wide::Wide;
use packed::monomials::Monomials;
use packed::stretch::Stretch;
use packed::term::Term;
use packed::view::View;
use std::mem::swap;

// A list in front need not rise while a sum is made, so each operation says of its own list that it rises.
#[derive(Drop)]
pub struct Scratch<'a> {
    pub front: Wide<'a>,
    pub back: Wide<'a>,
}

impl Scratch<'_> {
    pub fn clear(&mut self)
        ensures { written self.new.front ≡ [] }
    {
        self.front.clear();
    }

    // A monomial times a stored polynomial is added.
    pub fn add_scaled(&mut self, by: Term, polynomial: View)
        requires { Addable (scaled_by by polynomial) (written self.old.front) }
        ensures { written self.new.front ≡ add_terms (scaled_by by polynomial.entry) (written self.old.front) }
    {
        add_scaled(by, polynomial, &self.front, &mut self.back);
        swap(&mut self.front, &mut self.back);
    }

    // The product of a stretch and a polynomial is added.
    pub fn add_product(&mut self, stretch: Stretch, polynomial: View)
        requires { OneProduct (written self.old.front) }
        ensures { written self.new.front ≡ add_product (stretch_terms stretch.entry) (terms_in polynomial.entry) (written self.old.front) }
    {
        for term in stretch.terms().rev() {
            self.add_scaled(term, polynomial);
        }
    }
}

// A position within its stretch.
ghost use Rattle.std.specs.Prelude.{◌≡◌, ◌≤◌, ◌-◌};
ghost use Rattle.placing.specs.Sizes.{greatest_species, elements_of};
ghost use Rattle.placing.specs.Placing.{offset_of};

use crate::{Position, elements};

impl Position {
    // How many positions of its stretch there are from this one on.
    pub fn left_in_stretch(self, species: u32) -> u32
        requires { (1 ≤ self.0) × (species ≤ greatest_species) }
        ensures { result ≡ elements_of species - offset_of species self.0 }
    {
        let size = elements(species);
        size - (self.0 - 1) % size
    }
}

// How far a run goes on within one stretch.
#![tactic(auto)]

ghost use Rattle.std.specs.Prelude.{◌+◌, ◌≤◌, ◌<◌, length, ◌≡◌, true};
ghost use Rattle.placing.specs.Sizes.{greatest_species, greatest_end};
ghost use Rattle.run_spans.specs.Ahead.{Ahead, Fewer, Fitting};

use placing::Position;
use placing::whole::WHOLE_SPECIES;

pub mod bits; // elements by the bits before them
pub mod cells; // elements that are cells

// A number of so many bits may be any; so many numbers, more than a stretch has, are looked at together.
const CELL_BITS: u32 = 32;

const MOST_AT_ONCE: usize = 65536;

// How many positions from `first` on lie in its stretch and before `beyond`.
pub fn ahead(species: u32, first: Position, beyond: Position) -> u32
    requires { (species ≤ greatest_species) × (1 ≤ first.0) × (first.0 < beyond.0) × (beyond.0 ≤ greatest_end) }
    ensures { Ahead species first.0 beyond.0 result }
{
    let here = first.left_in_stretch(species);
    let before = beyond.number() - first.number();
    here.min(before)
}

// So many, but no more than are left.
pub fn fewer(most: u32, left: usize) -> usize
    ensures { Fewer most left result }
{
    left.min(most as usize)
}

// Whether it is seen at once that so many numbers of a list fit: with no early exit, so that the compiler makes the loop wide.
fn all_fit(species: u32, list: &[u32], most: usize) -> bool
    requires { (species ≤ greatest_species) × (most ≤ length list.now) }
    ensures { result ≡ true → Fitting species list.now most most }
{
    let width = placing::width(species);
    if CELL_BITS <= width {
        return false;
    }
    if MOST_AT_ONCE < most {
        return false;
    }
    combine::all_below(&list[0..most], 1 << width)
}

// How many numbers of a list, of so many, come before the first that is too wide for the species.
fn leading(species: u32, list: &[u32], most: usize) -> usize
    requires { (species ≤ greatest_species) × (most ≤ length list.now) }
    ensures { Fitting species list.now most result }
{
    for (j, number) in list[0..most].iter().enumerate() {
        if numbers::is_too_wide_plain(species, *number) {
            return j;
        }
    }
    most
}

// The same. Of species 5 no number is too wide, and nothing is looked at.
pub fn fitting(species: u32, list: &[u32], most: usize) -> usize
    requires { (species ≤ greatest_species) × (most ≤ length list.now) }
    ensures { Fitting species list.now most result }
{
    if species == WHOLE_SPECIES {
        return most;
    }
    if all_fit(species, list, most) {
        return most;
    }
    leading(species, list, most)
}

// The position so many further on.
pub fn on_by(position: Position, count: usize) -> Position
    requires { position.0 + count ≤ greatest_end }
    ensures { result.0 ≡ position.0 + count }
{
    Position::of(position.number() + count as u32)
}

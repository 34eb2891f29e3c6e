// What a record's cells and an opening's have in common: an extent, and a list of segments.
#![tactic(auto)]

ghost use Rattle.std.specs.Prelude.{◌≡◌, map, ◌≤◌, length};
ghost use Rattle.placing.specs.Sizes.{most_held};
ghost use Rattle.placing.specs.Placing.{segment};
ghost use Rattle.tables.specs.Records.{extentb, listb};
ghost use Rattle.sound_extents.specs.Extent.{contentb};

use placing::{GREATEST_END, GREATEST_SPECIES, LIST_LENGTH, MOST_HELD, Position};

// "its species, begin, end and number of held segments are as for records"
pub fn extent_sound(species: u32, begin: u32, end: u32) -> bool
    ensures { result ≡ extentb species begin end }
{
    if species > GREATEST_SPECIES {
        return false;
    }
    if begin < 1 {
        return false;
    }
    if end < begin {
        return false;
    }
    if end > GREATEST_END {
        return false;
    }
    placing::held(species, Position::of(begin), Position::of(end)) <= MOST_HELD
}

// "segment numbers in range"; "Unused list places are zero"
pub fn list_sound(list: &[u32], held: usize, segments: u32) -> bool
    requires { (length list.now ≡ most_held) × (held ≤ most_held) }
    ensures { result ≡ listb segments held (map segment list.now) }
{
    if !combine::all_below(&list[0..held], segments) {
        return false;
    }
    combine::all_zero(&list[held..LIST_LENGTH])
}

// Both, of a record's cells or an opening's.
pub fn content_sound(species: u32, begin: u32, end: u32, list: &[u32], segments: u32) -> bool
    requires { length list.now ≡ most_held }
    ensures { result ≡ contentb segments species begin end (map segment list.now) }
{
    if !extent_sound(species, begin, end) {
        return false;
    }
    let held = placing::held(species, Position::of(begin), Position::of(end));
    list_sound(list, held as usize, segments)
}

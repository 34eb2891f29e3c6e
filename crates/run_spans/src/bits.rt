// Elements of one stretch by the bits before them: each next one comes its width further on, and nothing is divided for it.
ghost use Rattle.std.specs.Prelude.{◌+◌, ◌*◌, ◌/◌, ◌%◌, ◌≤◌, ◌≡◌, length, get_or, set};
ghost use Rattle.packing.specs.Packing.{take_bits, put_bits};
ghost use Rattle.placing.specs.Sizes.{greatest_species};
ghost use Rattle.placing.specs.Placing.{cell_of, bit_of};
ghost use Rattle.run_spans.specs.Bits.{Lies};

use placing::{Position, Segment};

// How many bits of the store come before an element.
pub fn bits_to(segment: Segment, position: Position, species: u32) -> usize
    requires { (1 ≤ position.0) × (species ≤ greatest_species) }
    ensures { result ≡ (cell_of species segment position).0 * 32 + bit_of species position }
{
    let cell = segment.cell(position, species).index();
    let bit = position.bit(species);
    cell * 32 + bit as usize
}

// The element of a width after so many bits.
pub fn take_after(store: &[u32], bits: usize, width: u32) -> u32
    requires { Lies (length store.now) bits width }
    ensures { result ≡ take_bits width (bits % 32) (get_or store.now (bits / 32) 0) }
{
    let cell = bits / 32;
    let bit = (bits % 32) as u32;
    packing::take_bits(store[cell], width, bit)
}

// The same replaced.
pub fn put_after(store: &mut [u32], bits: usize, width: u32, number: u32)
    requires { Lies (length store.old) bits width }
    ensures { store.new ≡ set store.old (bits / 32) (put_bits width (bits % 32) (get_or store.old (bits / 32) 0) number) }
{
    let cell = bits / 32;
    let bit = (bits % 32) as u32;
    store[cell] = packing::put_bits(store[cell], width, bit, number);
}

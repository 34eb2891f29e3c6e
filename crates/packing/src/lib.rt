// Elements of 1 to 32 bits in a cell of 32, most significant first.
#![tactic(auto)]

ghost use Rattle.std.specs.Prelude.{◌≡◌, ◌+◌, ◌≤◌};
ghost use Rattle.packing.specs.Packing.{take_bits, put_bits};

// The element of `width` bits of a cell whose top bit is `at` bits below the cell's.
pub fn take_bits(cell: u32, width: u32, at: u32) -> u32
    requires { (1 ≤ width) × (at + width ≤ 32) }
    ensures { result ≡ take_bits width at cell }
{
    (cell << at) >> (32 - width)
}

// The cell with that element replaced by the low `width` bits of `x`.
pub fn put_bits(cell: u32, width: u32, at: u32, x: u32) -> u32
    requires { (1 ≤ width) × (at + width ≤ 32) }
    ensures { result ≡ put_bits width at cell x }
{
    let below = 32 - (at + width);
    let old = take_bits(cell, width, at) << below;
    let new = take_bits(x, width, 32 - width) << below;
    cell - old + new
}

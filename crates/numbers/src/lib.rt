// The numbers that elements stand for: plain ones, and signed ones "from -32,768 to 32,767 in 16 bits" (document 02,
// P5).
#![tactic(auto)]

ghost use Rattle.std.specs.Prelude.{◌≡◌, ◌≤◌, ◌^◌, leb};
ghost use Rattle.placing.specs.Sizes.{greatest_species, width_of};
ghost use Rattle.numbers.specs.Numbers.{signed_of, signed_bits, out_of_range, is_foreign, is_signed, too_wide, bits_of};

use placing::SIGNED_SPECIES;

// A number as a write is given it.
#[derive(Clone, Copy)]
pub enum Number {
    Plain(u32),
    Signed(i32),
}

pub const LEAST_SIGNED: i32 = -32768;

pub const GREATEST_SIGNED: i32 = 32767;

// "the top bit counting minus 32,768"; 16 bits are twice as many.
const TOP_BIT: u32 = 32768;

const SIGNED_WAYS: u32 = 2 * TOP_BIT;

// The signed number that 16 bits stand for.
pub fn value(bits: u32) -> i32
    ensures { result ≡ signed_of bits }
{
    let rest = bits % TOP_BIT;
    let below = bits / TOP_BIT % 2 * TOP_BIT;
    rest as i32 - below as i32
}

// The 16 bits that stand for a signed number.
fn signed_bits(number: i32) -> u32
    ensures { result ≡ signed_bits number }
{
    if number < 0 {
        let below = (-1 - number) as u32;
        return SIGNED_WAYS - 1 - below % SIGNED_WAYS;
    }
    number as u32 % SIGNED_WAYS
}

fn is_out_of_range(number: i32) -> bool
    ensures { result ≡ out_of_range number }
{
    number < LEAST_SIGNED || GREATEST_SIGNED < number
}

// Of a plain number.
pub fn is_too_wide_plain(species: u32, number: u32) -> bool
    requires { species ≤ greatest_species }
    ensures { result ≡ leb (2 ^ width_of species) number }
{
    let limit: u64 = 1 << placing::width(species);
    limit <= u64::from(number)
}

// The signed calls "refuse species 0 to 5 with 19, and the plain ones refuse species 6 with 19".
#[tactic(auto, using(std::proofs::lemmas::Bool::Decides::nat_tests))]
pub fn is_foreign(signed: bool, species: u32) -> bool
    ensures { result ≡ is_foreign signed species }
{
    signed != (species == SIGNED_SPECIES)
}

pub fn is_signed(number: Number) -> bool
    ensures { result ≡ is_signed number }
{
    matches!(number, Number::Signed(_))
}

// "A number too wide for its species, or outside its range where it is signed"
pub fn is_too_wide(species: u32, number: Number) -> bool
    requires { species ≤ greatest_species }
    ensures { result ≡ too_wide species number }
{
    match number {
        Number::Plain(plain) => is_too_wide_plain(species, plain),
        Number::Signed(signed) => is_out_of_range(signed),
    }
}

// The bits that are stored.
pub fn bits(number: Number) -> u32
    ensures { result ≡ bits_of number }
{
    match number {
        Number::Plain(plain) => plain,
        Number::Signed(signed) => signed_bits(signed),
    }
}

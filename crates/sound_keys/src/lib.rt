// Keys of names: numbers by which the records are told apart fast. They stand in no promise; soundness speaks of names.
#![tactic(auto)]

ghost use Rattle.std.specs.Prelude.{◌≡◌, ◌-◌, ◌^◌, ◌≤◌, ◌<◌, length};
ghost use Rattle.placing.specs.Sizes.{places, record_length};
ghost use Rattle.tables.specs.Layout.{record_of};
ghost use Rattle.sound_keys.specs.Keys.{key_of, short_of, public_of, newb, apartb};

use placing::{GREATEST_USER, PLACES};
use tables::layout;

// A symbol of a name is below this.
const SYMBOLS: u64 = 1 << 6;

// A key is below this: six symbols after a 1.
const KEY_BOUND: u64 = 1 << 37;

// The factor of the low key in a sum of two, above SYMBOLS^2.
const LOW_FACTOR: u64 = 4099;

// What a sum of two keys is multiplied by, and how much of the product is left out below its middle.
const SPREAD: u64 = 32719;

const BELOW_MIDDLE: u64 = 1 << 8;

// A short key is below this, and one of so many owners is added at its top three bits.
const SHORT_BOUND: u64 = 1 << 32;

const OWNERS: u32 = GREATEST_USER + 1;

const OWNER_UNIT: u64 = SHORT_BOUND / OWNERS as u64;

// From this place on the short keys are asked.
const FIRST_ASKED: usize = 16;

// The keys of the records at all places, as far as they are made: of the two halves of a name, and the short ones.
#[derive(Drop)]
pub struct Keys {
    pub high: [u64; PLACES],
    pub low: [u64; PLACES],
    pub owned: [u32; PLACES],
    pub public: [u32; PLACES],
}

fn wide(cell: u32) -> u64
    ensures { (result ≡ cell) × (result < 2 ^ 32) }
{
    u64::from(cell)
}

// Six symbols of a used record's name, from cell `at` of its row on, as one number after a 1; 0 for an unused record, as
// `key_of` says.
pub fn key(row: &[u32], at: usize) -> u64
    requires { (length row.now ≡ record_length) × (1 ≤ at) × (at ≤ 7) }
    ensures { result ≡ key_of (record_of row.now) (at - 1) }
{
    if row[layout::RECORD_USED] == 0 {
        return 0;
    }
    let two = (SYMBOLS + wide(row[at])) * SYMBOLS + wide(row[at + 1]);
    let four = (two * SYMBOLS + wide(row[at + 2])) * SYMBOLS + wide(row[at + 3]);
    (four * SYMBOLS + wide(row[at + 4])) * SYMBOLS + wide(row[at + 5])
}

// A number of 32 bits for two keys and an owner: records of one name and one owner have the same, and others seldom. A key of
// six symbols loses no bit, and each one reaches the 32 that are taken from the middle of the product, which is below 2^64.
// LOW_FACTOR keeps a change of the high key's last two symbols from cancelling with one of the low key. The owner's three bits
// are added at the top, so that one name with two owners never has one number.
pub fn short(high: u64, low: u64, owner: u32) -> u32
    ensures { result ≡ short_of high low owner }
{
    let sum = high % KEY_BOUND + LOW_FACTOR * (low % KEY_BOUND);
    ((sum * SPREAD / BELOW_MIDDLE + wide(owner % OWNERS) * OWNER_UNIT) % SHORT_BOUND) as u32
}

// One for two keys alone, as public records of one name clash whoever owns them; 0 for a private record, which clashes with
// its own owner's only, as `public_of` says.
pub fn public_short(high: u64, low: u64, private: u32) -> u32
    ensures { result ≡ public_of high low private }
{
    if private == 0 {
        return short(high, low, 0);
    }
    0
}

// Whether the short key at place p is new there.
fn is_new(shorts: &[u32], p: usize) -> bool
    requires { (length shorts.now ≡ places) × (p < places) }
    ensures { result ≡ newb shorts.now p }
{
    !combine::lists(&shorts[0..p], shorts[p])
}

// Whether the short keys tell the record at place p from all before it. They are asked from FIRST_ASKED on: fewer
// records are compared one by one in less time than two rows are searched.
pub fn apart(owned: &[u32], public: &[u32], private: u32, p: usize) -> bool
    requires { (length owned.now ≡ places) × (length public.now ≡ places) × (p < places) }
    ensures { result ≡ apartb owned.now public.now private p }
{
    if p < FIRST_ASKED {
        return false;
    }
    if !is_new(owned, p) {
        return false;
    }
    if private != 0 {
        return true;
    }
    is_new(public, p)
}

// "No two records of one owner have one name; no two public records have one name."
#![tactic(auto)]

ghost use Rattle.std.specs.Prelude.{◌≡◌, true, ℕ, ◌+◌, ◌<◌, length};
ghost use Rattle.combine.specs.Below.{all_below};
ghost use Rattle.placing.specs.Sizes.{places, tables_length};
ghost use Rattle.tables.specs.Layout.{record_at};
ghost use Rattle.tables.specs.Fields.{is_used};
ghost use Rattle.tables.specs.Records.{no_clashb};
ghost use Rattle.sound_clashes.specs.Halves.{Spelled};
ghost use Rattle.sound_names.specs.Keys.{Keyed};

use placing::{PLACES, RECORD_LENGTH, RECORDS_START};
use sound_keys::Keys;
use tables::layout;

// The second six symbols of a name, in a record's row.
const SECOND_HALF: usize = layout::RECORD_NAME + 6;

// The cell of the first record's private flag.
const FIRST_PRIVATE: usize = RECORDS_START + layout::RECORD_PRIVATE;

fn alone(tables: &[u32], keys: &Keys, p: usize) -> bool
    requires { Keyed tables.now keys.now.high keys.now.low keys.now.owned keys.now.public (p + 1) × (is_used (record_at tables.now p) ≡ true) }
    ensures { result ≡ no_clashb tables.now p }
{
    // Records that clash have one short key: where no record before has it, none is compared one by one.
    let private = tables[FIRST_PRIVATE + RECORD_LENGTH * p];
    if sound_keys::apart(&keys.owned, &keys.public, private, p) {
        return true;
    }
    for q in 0..p {
        if sound_clashes::clashes(tables, &keys.high, &keys.low, p, q) {
            return false;
        }
    }
    true
}

// Whether no two records have names that clash. The keys of each record are made once, when its place is reached; an unused
// record is passed over, as its keys are 0 from the start.
pub fn names_sound(tables: &[u32]) -> bool
    requires { (length tables.now ≡ tables_length) × ((p : ℕ) → p < places → Spelled (record_at tables.now p)) }
    ensures { result ≡ all_below places (no_clashb tables.now) }
{
    let mut keys = Keys {
        high: [0; PLACES],
        low: [0; PLACES],
        owned: [0; PLACES],
        public: [0; PLACES],
    };
    for p in 0..PLACES {
        let from = RECORDS_START + RECORD_LENGTH * p;
        if tables[from] == 0 {
            continue;
        }
        let to = from + RECORD_LENGTH;
        let row = &tables[from..to];
        let first = sound_keys::key(row, layout::RECORD_NAME);
        let second = sound_keys::key(row, SECOND_HALF);
        keys.high[p] = first;
        keys.low[p] = second;
        keys.owned[p] = sound_keys::short(first, second, row[layout::RECORD_OWNER]);
        keys.public[p] = sound_keys::public_short(first, second, row[layout::RECORD_PRIVATE]);
        if !alone(tables, &keys, p) {
            return false;
        }
    }
    true
}

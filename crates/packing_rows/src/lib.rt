// Numbers of 1 to 32 bits, one after the other, in a row of cells: most significant first, across a cell's end too.
#![tactic(auto)]

ghost use Rattle.std.specs.Prelude.{◌≡◌, ℕ, ◌+◌, ◌-◌, ◌*◌, ◌/◌, ◌^◌, ◌≤◌, ◌<◌, length, get_or, take};
ghost use Rattle.packing.specs.Packing.{row_of, cells_of, sum, packed, unpacked};
ghost use Rattle.packing_rows.specs.Waiting.{Narrow, Fitting, Begun, Packs, Unpacks};

// Bits that wait between the numbers and the cells, as one number, and which of the numbers comes next: by its index,
// since the clauses say which numbers were taken, and an iterator over them says only which are left.
#[derive(Clone, Copy)]
struct Waiting {
    number: u64,
    bits: u32,
    next: usize,
}

const NONE_YET: Waiting = Waiting {
    number: 0,
    bits: 0,
    next: 0,
};

// Numbers come below the bits that wait, until a cell is full.
fn gather(widths: &[u32], values: &[u32], mut waiting: Waiting) -> Waiting
    requires narrow { Narrow widths.now × (length values.now ≡ length widths.now) × Fitting widths.now values.now }
    requires begun { Begun widths.now waiting.number waiting.bits waiting.next }
    requires widths_bound { 32 + sum (take waiting.next widths.now) ≤ waiting.bits + sum widths.now }
    ensures le_bits { (32 ≤ result.bits) × Begun widths.now result.number result.bits result.next }
    ensures bits_value { sum (take result.next widths.now) + waiting.bits ≡ sum (take waiting.next widths.now) + result.bits }
    ensures by_index { (row : ℕ) → Packs widths.now values.now row waiting.number waiting.bits waiting.next → Packs widths.now values.now row result.number result.bits result.next }
{
    while waiting.bits < 32 {
        let width = widths[waiting.next];
        waiting.number = (waiting.number << width) + u64::from(values[waiting.next]);
        waiting.bits += width;
        waiting.next += 1;
    }
    waiting
}

// The numbers, each in its width, fill the cells.
pub fn pack(cells: &mut [u32], widths: &[u32], values: &[u32])
    requires { Narrow widths.now × (length values.now ≡ length widths.now) × (sum widths.now ≡ 32 * length cells.old) × Fitting widths.now values.now }
    ensures { cells.new ≡ cells_of (length cells.old) (packed widths.now values.now) }
{
    let mut waiting = NONE_YET;
    for cell in cells.iter_mut() {
        let gathered = gather(widths, values, waiting);
        let bits = gathered.bits - 32;
        let full = gathered.number >> bits;
        *cell = full as u32;
        waiting = Waiting {
            number: gathered.number - (full << bits),
            bits,
            next: gathered.next,
        };
    }
}

// Numbers are handed out from the top of the bits that wait, until the next one is wider than they are many.
fn hand_out(widths: &[u32], values: &mut [u32], mut waiting: Waiting) -> Waiting
    requires narrow { Narrow widths.now × (length values.old ≡ length widths.now) }
    requires begun { Begun widths.now waiting.number waiting.bits waiting.next }
    ensures bits_bound { (result.next < length widths.now → result.bits < get_or widths.now result.next 0) × Begun widths.now result.number result.bits result.next }
    ensures bits_value { sum (take result.next widths.now) + result.bits ≡ sum (take waiting.next widths.now) + waiting.bits }
    ensures by_index { (row : ℕ) → Unpacks widths.now values.old row waiting.number waiting.bits waiting.next → Unpacks widths.now values.new row result.number result.bits result.next }
{
    while waiting.next < widths.len() {
        let width = widths[waiting.next];
        if waiting.bits < width {
            break;
        }
        waiting.bits -= width;
        let value = waiting.number >> waiting.bits;
        values[waiting.next] = value as u32;
        waiting.number -= value << waiting.bits;
        waiting.next += 1;
    }
    waiting
}

// The numbers, each in its width, that the cells begin with; fewer bits than a cell has may be left over.
pub fn unpack(cells: &[u32], widths: &[u32], values: &mut [u32])
    requires narrow { Narrow widths.now × (length values.old ≡ length widths.now) }
    requires widths_bound { (sum widths.now ≤ 32 * length cells.now) × (32 * length cells.now < sum widths.now + 32) }
    ensures { values.new ≡ unpacked widths.now (row_of cells.now / 2 ^ (32 * length cells.now - sum widths.now)) }
{
    let mut waiting = NONE_YET;
    for cell in cells {
        let more = Waiting {
            number: (waiting.number << 32) + u64::from(*cell),
            bits: waiting.bits + 32,
            next: waiting.next,
        };
        waiting = hand_out(widths, values, more);
    }
}

// The calls `write` and `write_signed`: a plan is decided, and carried out.
#![tactic(auto)]

ghost use Rattle.std.specs.Prelude.{ℕ, ◌≡◌, ◌+◌, ◌*◌, ◌≤◌, ◌<◌, length};
ghost use Rattle.combine.specs.Verdict.{Verdict};
ghost use Rattle.placing.specs.Sizes.{segment_cells, tables_length, entries};
ghost use Rattle.numbers.specs.Numbers.{is_signed, too_wide, bits_of};
ghost use Rattle.rules.specs.Calls.{uses, write, write_signed};
ghost use Rattle.rules.specs.Effects.{Use};
ghost use Rattle.tables.specs.Layout.{segments_in, opening_at};
ghost use Rattle.cells.specs.Outcomes.{outcome, request_out};
ghost use Rattle.gate_laws.specs.Standing.{Standing};
ghost use Rattle.gate_laws.specs.Known.{Known};
ghost use Rattle.gate_laws.specs.Used.{used_out};
ghost use Rattle.write_plan.specs.Plans.{write_verdict, Planned};
ghost use Rattle.call_write.specs.Settled.{settled, Moves, Chosen, write_of};

use answers::{Answer, Refusal};
use numbers::Number;
use placing::Segment;
use tables::Opening;
use write_plan::Plan;

// The element goes into its segment, the pointer grows, the opening is put back.
fn settle(
    store: &mut [u32],
    tables: &mut [u32],
    entry: usize,
    opening: Opening,
    pointer: u32,
    segment: Segment,
    number: u32,
) -> Answer
    requires { (length tables.old ≡ tables_length) × (entry < entries) × (segment.0 * segment_cells + segment_cells ≤ length store.old) × Moves opening pointer }
    ensures { outcome result store.new tables.new ≡ settled store.old tables.old entry opening pointer number segment }
{
    let value = opening.value(pointer);
    store::put_element(store, opening.species, segment, value, number);
    let after = opening.step(pointer, value.after());
    tables_openings::put_opening(tables, entry, after);
    Ok(0)
}

// What was decided for the opening is carried out for a number's bits, whatever the verdict was that gave it: a refusal
// changes nothing.
pub fn carry(
    store: &mut [u32],
    tables: &mut [u32],
    entry: usize,
    opening: Opening,
    pointer: u32,
    bits: u32,
    decision: Result<Plan, Refusal>,
) -> Answer
    requires { (length tables.old ≡ tables_length) × (entry < entries) × (segments_in tables.old * segment_cells ≤ length store.old) × Known tables.old opening × Chosen tables.old opening pointer decision }
    ensures { (verdict : ℕ → Verdict Use) → Planned tables.old opening pointer verdict decision → outcome result store.new tables.new ≡ used_out store.old tables.old entry opening (verdict bits) }
{
    let plan = decision?;
    match plan {
        // "Through 0: the first element is dropped, no segment is taken and no store cell changes."
        Plan::Drop => {
            let after = opening_steps::first_left(opening);
            tables_openings::put_opening(tables, entry, after);
            Ok(0)
        }
        Plan::Put(own) => settle(store, tables, entry, opening, pointer, own, bits),
        Plan::Copy(place, shared, taken) => {
            store::copy_segment(store, shared, taken);
            let changed = opening_steps::with_segment(opening, place, taken);
            settle(store, tables, entry, changed, pointer, taken, bits)
        }
        Plan::Zero(place, fresh) => {
            store::zero_segment(store, fresh);
            let changed = opening_steps::with_segment(opening, place, fresh);
            settle(store, tables, entry, changed, pointer, fresh, bits)
        }
    }
}

// A number is written behind the gate, at an open entry of 32.
fn write_at(
    store: &mut [u32],
    tables: &mut [u32],
    at: usize,
    pointer: u32,
    number: Number,
) -> Answer
    requires { Standing (length store.old) tables.old at }
    ensures { outcome result store.new tables.new ≡ used_out store.old tables.old at (opening_at tables.old at) (write_verdict tables.old (opening_at tables.old at) pointer (is_signed number) (too_wide (opening_at tables.old at).species number) (bits_of number)) }
{
    let opening = tables_openings::load_opening(tables, at);
    let signed = numbers::is_signed(number);
    let wide = numbers::is_too_wide(opening.species, number);
    let plan = write_plan::decide(tables, opening, pointer, signed, wide);
    carry(
        store,
        tables,
        at,
        opening,
        pointer,
        numbers::bits(number),
        plan,
    )
}

// The body of both calls.
fn write_of(
    store: &mut [u32],
    tables: &mut [u32],
    user: u32,
    entry: u32,
    pointer: u32,
    number: Number,
) -> Answer
    ensures { outcome result store.new tables.new ≡ request_out (uses (write_of pointer number)) store.old tables.old user entry }
{
    let at = gate::reach(store.len(), tables, user, entry)?;
    write_at(store, tables, at, pointer, number)
}

// Writes a number through a pointer of an entry of a user.
pub fn write(
    store: &mut [u32],
    tables: &mut [u32],
    user: u32,
    entry: u32,
    pointer: u32,
    number: u32,
) -> Answer
    ensures { outcome result store.new tables.new ≡ request_out (uses (write pointer number)) store.old tables.old user entry }
{
    write_of(store, tables, user, entry, pointer, Number::Plain(number))
}

// Writes a signed number through a pointer of an entry of a user.
pub fn write_signed(
    store: &mut [u32],
    tables: &mut [u32],
    user: u32,
    entry: u32,
    pointer: u32,
    number: i32,
) -> Answer
    ensures { outcome result store.new tables.new ≡ request_out (uses (write_signed pointer number)) store.old tables.old user entry }
{
    write_of(store, tables, user, entry, pointer, Number::Signed(number))
}

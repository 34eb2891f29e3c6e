// The inquiries about an open file.
ghost use Rattle.std.specs.Prelude.{◌≡◌};
ghost use Rattle.rules.specs.Calls as call;
ghost use Rattle.rules.specs.Calls.{uses};
ghost use Rattle.cells.specs.Outcomes.{lent, request_out};
ghost use Rattle.door.specs.Handed.{handed};

use crate::packed::pack;

#[unsafe(no_mangle)]
pub extern "C" fn dorrivand_species(store: &[u32], tables: &[u32], user: u32, entry: u32) -> u64
    ensures { handed result (lent store.now tables.now) ≡ request_out (uses call.ask_species) store.now tables.now user entry }
{
    pack(call_ask::species(store, tables, user, entry))
}

#[unsafe(no_mangle)]
pub extern "C" fn dorrivand_claim(store: &[u32], tables: &[u32], user: u32, entry: u32) -> u64
    ensures { handed result (lent store.now tables.now) ≡ request_out (uses call.ask_claim) store.now tables.now user entry }
{
    pack(call_ask::claim(store, tables, user, entry))
}

#[unsafe(no_mangle)]
pub extern "C" fn dorrivand_permit(store: &[u32], tables: &[u32], user: u32, entry: u32) -> u64
    ensures { handed result (lent store.now tables.now) ≡ request_out (uses call.ask_permit) store.now tables.now user entry }
{
    pack(call_ask::permit(store, tables, user, entry))
}

#[unsafe(no_mangle)]
pub extern "C" fn dorrivand_begin(store: &[u32], tables: &[u32], user: u32, entry: u32) -> u64
    ensures { handed result (lent store.now tables.now) ≡ request_out (uses call.ask_begin) store.now tables.now user entry }
{
    pack(call_ask::begin(store, tables, user, entry))
}

#[unsafe(no_mangle)]
pub extern "C" fn dorrivand_end(store: &[u32], tables: &[u32], user: u32, entry: u32) -> u64
    ensures { handed result (lent store.now tables.now) ≡ request_out (uses call.ask_end) store.now tables.now user entry }
{
    pack(call_ask::end(store, tables, user, entry))
}

#[unsafe(no_mangle)]
pub extern "C" fn dorrivand_symbol(
    store: &[u32],
    tables: &[u32],
    user: u32,
    entry: u32,
    k: u32,
) -> u64
    ensures { handed result (lent store.now tables.now) ≡ request_out (uses (call.ask_symbol k)) store.now tables.now user entry }
{
    pack(call_ask::symbol(store, tables, user, entry, k))
}

#[unsafe(no_mangle)]
pub extern "C" fn dorrivand_value(
    store: &[u32],
    tables: &[u32],
    user: u32,
    entry: u32,
    pointer: u32,
) -> u64
    ensures { handed result (lent store.now tables.now) ≡ request_out (uses (call.ask_value pointer)) store.now tables.now user entry }
{
    pack(call_ask::value(store, tables, user, entry, pointer))
}

// Opening, renaming, closing and abandoning.
ghost use Rattle.std.specs.Prelude.{◌≡◌, true, false};
ghost use Rattle.rules.specs.Calls as call;
ghost use Rattle.rules.specs.Calls.{opens, closes, abandons, uses};
ghost use Rattle.cells.specs.Outcomes.{lent, request_out};
ghost use Rattle.door.specs.Handed.{handed};

use crate::packed::pack;

#[unsafe(no_mangle)]
pub extern "C" fn dorrivand_new(
    store: &[u32],
    tables: &mut [u32],
    user: u32,
    entry: u32,
    species: u32,
) -> u64
    ensures { handed result (lent store.now tables.new) ≡ request_out (opens (call.new species)) store.now tables.old user entry }
{
    pack(call_open::open_new(store, tables, user, entry, species))
}

#[unsafe(no_mangle)]
pub extern "C" fn dorrivand_work(
    store: &[u32],
    tables: &mut [u32],
    user: u32,
    entry: u32,
    name: &[u8],
) -> u64
    ensures { handed result (lent store.now tables.new) ≡ request_out (opens (call.work name.now)) store.now tables.old user entry }
{
    pack(call_open::open_work(store, tables, user, entry, name))
}

#[unsafe(no_mangle)]
pub extern "C" fn dorrivand_read(
    store: &[u32],
    tables: &mut [u32],
    user: u32,
    entry: u32,
    name: &[u8],
) -> u64
    ensures { handed result (lent store.now tables.new) ≡ request_out (opens (call.read name.now)) store.now tables.old user entry }
{
    pack(call_open::open_read(store, tables, user, entry, name))
}

#[unsafe(no_mangle)]
pub extern "C" fn dorrivand_rename(
    store: &[u32],
    tables: &mut [u32],
    user: u32,
    entry: u32,
    name: &[u8],
) -> u64
    ensures { handed result (lent store.now tables.new) ≡ request_out (uses (call.rename name.now)) store.now tables.old user entry }
{
    pack(call_rename::rename(store, tables, user, entry, name))
}

#[unsafe(no_mangle)]
pub extern "C" fn dorrivand_close(store: &[u32], tables: &mut [u32], user: u32, entry: u32) -> u64
    ensures { handed result (lent store.now tables.new) ≡ request_out (closes false) store.now tables.old user entry }
{
    pack(call_close::close(store, tables, user, entry, false))
}

#[unsafe(no_mangle)]
pub extern "C" fn dorrivand_public(store: &[u32], tables: &mut [u32], user: u32, entry: u32) -> u64
    ensures { handed result (lent store.now tables.new) ≡ request_out (closes true) store.now tables.old user entry }
{
    pack(call_close::close(store, tables, user, entry, true))
}

#[unsafe(no_mangle)]
pub extern "C" fn dorrivand_abandon(store: &[u32], tables: &mut [u32], user: u32, entry: u32) -> u64
    ensures { handed result (lent store.now tables.new) ≡ request_out abandons store.now tables.old user entry }
{
    pack(call_close::abandon(store, tables, user, entry))
}

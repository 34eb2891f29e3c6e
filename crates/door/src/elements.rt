// Pointers, writing and access.
ghost use Rattle.std.specs.Prelude.{◌≡◌};
ghost use Rattle.rules.specs.Calls as call;
ghost use Rattle.rules.specs.Calls.{uses};
ghost use Rattle.cells.specs.Outcomes.{lent, request_out};
ghost use Rattle.door.specs.Handed.{handed};

use crate::packed::pack;

#[unsafe(no_mangle)]
pub extern "C" fn dorrivand_reset(store: &[u32], tables: &mut [u32], user: u32, entry: u32) -> u64
    ensures { handed result (lent store.now tables.new) ≡ request_out (uses call.reset) store.now tables.old user entry }
{
    pack(call_pointers::reset(store, tables, user, entry))
}

#[unsafe(no_mangle)]
pub extern "C" fn dorrivand_pointer(
    store: &[u32],
    tables: &mut [u32],
    user: u32,
    entry: u32,
    pointer: u32,
) -> u64
    ensures { handed result (lent store.now tables.new) ≡ request_out (uses (call.new_pointer pointer)) store.now tables.old user entry }
{
    pack(call_pointers::new_pointer(store, tables, user, entry, pointer))
}

#[unsafe(no_mangle)]
pub extern "C" fn dorrivand_delete(
    store: &[u32],
    tables: &mut [u32],
    user: u32,
    entry: u32,
    pointer: u32,
) -> u64
    ensures { handed result (lent store.now tables.new) ≡ request_out (uses (call.delete_pointer pointer)) store.now tables.old user entry }
{
    pack(call_pointers::delete_pointer(store, tables, user, entry, pointer))
}

#[unsafe(no_mangle)]
pub extern "C" fn dorrivand_write(
    store: &mut [u32],
    tables: &mut [u32],
    user: u32,
    entry: u32,
    pointer: u32,
    number: u32,
) -> u64
    ensures { handed result (lent store.new tables.new) ≡ request_out (uses (call.write pointer number)) store.old tables.old user entry }
{
    pack(call_write::write(store, tables, user, entry, pointer, number))
}

#[unsafe(no_mangle)]
pub extern "C" fn dorrivand_next(
    store: &[u32],
    tables: &mut [u32],
    user: u32,
    entry: u32,
    pointer: u32,
) -> u64
    ensures { handed result (lent store.now tables.new) ≡ request_out (uses (call.next pointer)) store.now tables.old user entry }
{
    pack(call_next_prev::next(store, tables, user, entry, pointer))
}

#[unsafe(no_mangle)]
pub extern "C" fn dorrivand_prev(
    store: &[u32],
    tables: &mut [u32],
    user: u32,
    entry: u32,
    pointer: u32,
) -> u64
    ensures { handed result (lent store.now tables.new) ≡ request_out (uses (call.prev pointer)) store.now tables.old user entry }
{
    pack(call_next_prev::prev(store, tables, user, entry, pointer))
}

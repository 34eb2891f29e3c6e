// Species 6: "its own write and next and prev that take and give a signed number" (document 02, P5).
ghost use Rattle.std.specs.Prelude.{◌≡◌};
ghost use Rattle.rules.specs.Calls as call;
ghost use Rattle.rules.specs.Calls.{uses};
ghost use Rattle.cells.specs.Outcomes.{lent, request_out};
ghost use Rattle.cells.specs.Signed.{read_signed};
ghost use Rattle.door.specs.Handed.{handed};
ghost use Rattle.door.specs.SignedHanded.{handed_signed};

use crate::packed::{pack, pack_signed};

#[unsafe(no_mangle)]
pub extern "C" fn dorrivand_write_signed(
    store: &mut [u32],
    tables: &mut [u32],
    user: u32,
    entry: u32,
    pointer: u32,
    number: i32,
) -> u64
    ensures { handed result (lent store.new tables.new) ≡ request_out (uses (call.write_signed pointer number)) store.old tables.old user entry }
{
    pack(call_write::write_signed(store, tables, user, entry, pointer, number))
}

#[unsafe(no_mangle)]
pub extern "C" fn dorrivand_next_signed(
    store: &[u32],
    tables: &mut [u32],
    user: u32,
    entry: u32,
    pointer: u32,
) -> i64
    ensures { handed_signed result (lent store.now tables.new) ≡ read_signed (request_out (uses (call.next_signed pointer)) store.now tables.old user entry) }
{
    pack_signed(call_next_prev::signed::next_signed(store, tables, user, entry, pointer))
}

#[unsafe(no_mangle)]
pub extern "C" fn dorrivand_prev_signed(
    store: &[u32],
    tables: &mut [u32],
    user: u32,
    entry: u32,
    pointer: u32,
) -> i64
    ensures { handed_signed result (lent store.now tables.new) ≡ read_signed (request_out (uses (call.prev_signed pointer)) store.now tables.old user entry) }
{
    pack_signed(call_next_prev::signed::prev_signed(store, tables, user, entry, pointer))
}

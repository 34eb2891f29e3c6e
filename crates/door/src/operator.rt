// The operator's calls, and the number of free segments.
ghost use Rattle.std.specs.Prelude.{◌≡◌};
ghost use Rattle.cells.specs.Outcomes.{lent, saved, fresh_out, save_out, load_out, free_out, tidy_out};
ghost use Rattle.door.specs.Handed.{handed};

use crate::packed::pack;

#[unsafe(no_mangle)]
pub extern "C" fn dorrivand_fresh(store: &[u32], tables: &mut [u32]) -> u64
    ensures { handed result (lent store.now tables.new) ≡ fresh_out store.now tables.old }
{
    pack(call_fresh::fresh(store, tables))
}

#[unsafe(no_mangle)]
pub extern "C" fn dorrivand_save(store: &[u32], tables: &[u32], image: &mut [u32]) -> u64
    ensures { handed result (saved store.now tables.now image.new) ≡ save_out store.now tables.now image.old }
{
    pack(call_save::save(store, tables, image))
}

#[unsafe(no_mangle)]
pub extern "C" fn dorrivand_load(store: &[u32], tables: &mut [u32], image: &[u32]) -> u64
    ensures { handed result (lent store.now tables.new) ≡ load_out store.now tables.old image.now }
{
    pack(call_load::load(store, tables, image))
}

#[unsafe(no_mangle)]
pub extern "C" fn dorrivand_free(store: &[u32], tables: &[u32], user: u32) -> u64
    ensures { handed result (lent store.now tables.now) ≡ free_out store.now tables.now user }
{
    pack(call_count::free_segments(store, tables, user))
}

#[unsafe(no_mangle)]
pub extern "C" fn dorrivand_tidy(store: &mut [u32], tables: &mut [u32]) -> u64
    ensures { handed result (lent store.new tables.new) ≡ tidy_out store.old tables.old }
{
    pack(call_tidy::tidy(store, tables))
}

// Runs of elements. The unwritten rest of a list is handed over as a number, for a caller in C has the list: it is the last so many of it.
ghost use Rattle.std.specs.Prelude.{◌≡◌};
ghost use Rattle.rules.specs.Calls.{writes, fills};
ghost use Rattle.cells.specs.Outcomes.{lent, run_out};
ghost use Rattle.cells.specs.Runs.{written_by, filled, filled_by};
ghost use Rattle.door.specs.Runs.{unwritten, unwritten_by};

#[unsafe(no_mangle)]
pub extern "C" fn dorrivand_write_run(
    store: &mut [u32],
    tables: &mut [u32],
    user: u32,
    entry: u32,
    pointer: u32,
    list: &[u32],
    place: &mut u32,
) -> usize
    ensures { unwritten result place.new (lent store.new tables.new) ≡ unwritten_by (written_by pointer list.now (run_out (writes pointer list.now) store.old tables.old user entry)) }
{
    let rest = call_write_run::write_run(store, tables, user, entry, pointer, list, place);
    rest.len()
}

#[unsafe(no_mangle)]
pub extern "C" fn dorrivand_fill_run(
    store: &[u32],
    tables: &mut [u32],
    user: u32,
    entry: u32,
    pointer: u32,
    list: &mut [u32],
    place: &mut u32,
) -> usize
    ensures { filled result place.new list.new (lent store.now tables.new) ≡ filled_by pointer list.old (run_out (fills pointer list.old) store.now tables.old user entry) }
{
    call_fill_run::fill_run(store, tables, user, entry, pointer, list, place)
}

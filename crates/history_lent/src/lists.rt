// Runs of elements: the lent cells of a list buffer are written, or filled by next.
ghost use Rattle.std.specs.Prelude.{◌≡◌, ◌≤◌, length};
ghost use Rattle.cells.specs.Outcomes.{lent};
ghost use Rattle.history_calls.specs.Told.{told};
ghost use Rattle.history_lent.specs.Rooms.{list_buffer, lending};
ghost use Rattle.history_lent.specs.Lists.{wrote_list, filling, filled_list, run_call, run_line};

use crate::sizes::{FIRST_LIST, LAST_LIST, LIST_BUFFER, LISTS_START, OTHERS_BUFFER};
use history_buffers::{BUFFERS, STORE, TABLES};
use history_calls::Reply;
use history_words::Numbers;

// "rest R N: R cells left unwritten, N the refusal's number or 0"
fn write_list(
    store: &mut [u32],
    tables: &mut [u32],
    list: &[u32],
    user: u32,
    entry: u32,
    pointer: u32,
) -> Reply
    requires { length list.now ≤ list_buffer }
    ensures { told result (lent store.new tables.new) ≡ wrote_list user entry pointer list.now store.old tables.old }
{
    let mut place: u32 = 0;
    let rest = call_write_run::write_run(store, tables, user, entry, pointer, list, &mut place);
    Reply::Rest(rest.len() as u32, place)
}

// "filled K N"
fn fill_list(
    store: &[u32],
    tables: &mut [u32],
    list: &mut [u32],
    user: u32,
    entry: u32,
    pointer: u32,
) -> Reply
    requires { length list.old ≤ list_buffer }
    ensures { filling result tables.new list.new ≡ filled_list user entry pointer list.old store.now tables.old }
{
    let mut place: u32 = 0;
    let many = call_fill_run::fill_run(store, tables, user, entry, pointer, list, &mut place);
    Reply::Filled(many as u32, place)
}

// A run over list buffer k. `writes` is a flag, and no function that is handed in: the one run is lent the store to be
// written and the list to be read, the other the store to be read and the list to be written, so no type is both's.
fn run_call(
    store: &mut [u32],
    tables: &mut [u32],
    others: &mut [u32],
    lengths: [u32; BUFFERS],
    user: u32,
    entry: u32,
    pointer: u32,
    k: u32,
    writes: bool,
) -> Reply
    ensures { lending result store.new tables.new others.new ≡ run_call lengths user entry pointer k writes store.old tables.old others.old }
{
    let at = k as usize;
    if LAST_LIST < at {
        return Reply::Bad;
    }
    if others.len() != OTHERS_BUFFER {
        return Reply::Bad;
    }
    let s = history_buffers::lent(lengths, STORE, store.len());
    let t = history_buffers::lent(lengths, TABLES, tables.len());
    let n = history_buffers::lent(lengths, FIRST_LIST + at, LIST_BUFFER);
    let from = LISTS_START + LIST_BUFFER * at;
    let to = from + n;
    if writes {
        return write_list(
            &mut store[0..s],
            &mut tables[0..t],
            &others[from..to],
            user,
            entry,
            pointer,
        );
    }
    fill_list(
        &store[0..s],
        &mut tables[0..t],
        &mut others[from..to],
        user,
        entry,
        pointer,
    )
}

pub fn run_line(
    store: &mut [u32],
    tables: &mut [u32],
    others: &mut [u32],
    lengths: [u32; BUFFERS],
    numbers: Option<Numbers>,
    writes: bool,
) -> Reply
    ensures { lending result store.new tables.new others.new ≡ run_line lengths numbers writes store.old tables.old others.old }
{
    let Some(Numbers::Four(user, entry, pointer, k)) = numbers else {
        return Reply::Bad;
    };
    run_call(
        store, tables, others, lengths, user, entry, pointer, k, writes,
    )
}

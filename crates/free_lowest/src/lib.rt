// The lowest free segment, by a search through the lists of segment numbers, each a row of cells of the tables.
#![tactic(auto)]

ghost use Rattle.std.specs.Prelude.{◌≡◌, ◌+◌, ◌<◌, ◌≤◌, length};
ghost use Rattle.placing.specs.Sizes.{most_segments, most_held, tables_length, lists};
ghost use Rattle.placing.specs.Placing.{segment};
ghost use Rattle.segments.specs.Free.{lowest_free};
ghost use Rattle.tables.specs.Laws.Sound.{Ranged};
ghost use Rattle.cells.specs.Says.{house_of};
ghost use Rattle.free_lowest.specs.Held.{HeldRows, numbers_in};
ghost use Rattle.free_lowest.specs.Round.{wrapped};
ghost use Rattle.free_lowest.specs.Run.{run_end};

use placing::{LISTS, Segment};

// A list's row: where it starts in the tables, and how many numbers it holds.
#[derive(Clone, Copy)]
struct Row {
    start: usize,
    count: usize,
}

const NO_ROW: Row = Row { start: 0, count: 0 };

// The numbers of the row.
fn numbers_in(tables: &[u32], row: Row) -> &[u32]
    requires { (row.start + row.count ≤ length tables.now) × (length tables.now ≡ tables_length) }
    ensures { result.now ≡ numbers_in tables.now row }
{
    let end = row.start + row.count;
    &tables[row.start..end]
}

// The rows of the lists that hold a segment, in the first places; how many they are.
fn held_rows(tables: &[u32], rows: &mut [Row; LISTS]) -> usize
    requires { Ranged tables.now × (length rows.old ≡ lists) }
    ensures { HeldRows tables.now lists result rows.new × (length rows.new ≡ lists) }
{
    let mut held = 0;
    for list in 0..LISTS {
        let count = free_count::held_in(tables, list);
        // A row with no number is written over by the next.
        rows[held] = Row {
            start: free_count::row_start(list),
            count: count,
        };
        held += (0 < count) as usize;
    }
    held
}

// The row after this one; after the last comes the first.
fn row_after(row: usize, rows: usize) -> usize
    requires { (row < rows) × (rows ≤ lists) }
    ensures { result ≡ wrapped rows (row + 1) }
{
    if row + 1 < rows {
        return row + 1;
    }
    0
}

// The number after the run of numbers, from this one on, that the row lists in rising order.
fn run_end(row: &[u32], number: u32) -> u32
    requires { (length row.now ≤ most_held) × (number ≤ most_segments) }
    ensures { result ≡ run_end row.now number }
{
    let mut next = number;
    for listed in row {
        next += (*listed == next) as u32;
    }
    next
}

// "A taken segment is always the lowest-numbered free one": the number of segments, where none is free, and no Option,
// for so `lowest_free` of the rules says it. The search has the form that document 01 names: left by a label at the
// first mention.
// A file's segments usually stand together, and the next file's row usually follows: a scan starts at the row of the
// last mention and goes round, and a mention passes the whole run that its row lists.
pub fn lowest_free(tables: &[u32]) -> Segment
    requires { Ranged tables.now }
    ensures { result ≡ segment (lowest_free (house_of tables.now)) }
{
    let segments = tables[0];
    let mut all = [NO_ROW; LISTS];
    let held = held_rows(tables, &mut all);
    let rows = &all[..held];
    let mut number: u32 = 0;
    let mut row: usize = 0;
    let found = 'search: loop {
        if segments <= number {
            break 'search segments;
        }
        for scanned in 0..rows.len() {
            let listed = numbers_in(tables, rows[row]);
            if combine::lists(listed, number) {
                number = run_end(listed, number);
                continue 'search;
            }
            row = row_after(row, rows.len());
        }
        break 'search number;
    };
    Segment::of(found)
}

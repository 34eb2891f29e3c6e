// Loops over rows of cells that serve every crate.
#![tactic(auto)]

ghost use Rattle.std.specs.Prelude.{◌≡◌, ◌≤◌, get_or, length, replicate, eqb, ltb};
ghost use Rattle.combine.specs.Below.{all_below};
ghost use Rattle.combine.specs.Lists.{is_in, same};

// Whether all cells are zero: their bits are gathered with no early exit, so that the compiler makes the loop wide.
pub fn all_zero(cells: &[u32]) -> bool
    ensures { result ≡ all_below (length cells.now) (λ k. eqb (get_or cells.now k 0) 0) }
{
    let mut bits: u32 = 0;
    for cell in cells {
        bits |= *cell;
    }
    bits == 0
}

// Whether all cells are the number.
pub fn all_equal(cells: &[u32], number: u32) -> bool
    ensures { result ≡ all_below (length cells.now) (λ k. eqb (get_or cells.now k 0) number) }
{
    cells.iter().all(|cell| *cell == number)
}

// Whether all cells are below the bound: those that are not are counted, with no early exit.
pub fn all_below(cells: &[u32], bound: u32) -> bool
    requires { length cells.now ≤ 65536 }
    ensures { result ≡ all_below (length cells.now) (λ k. ltb (get_or cells.now k 0) bound) }
{
    let mut beyond: u32 = 0;
    for cell in cells {
        beyond += (bound <= *cell) as u32;
    }
    beyond == 0
}

// Whether a row has the number: a count, so that the loop has no early exit and the compiler makes it wide.
pub fn lists(row: &[u32], number: u32) -> bool
    requires { length row.now ≤ 65536 }
    ensures { result ≡ is_in number row.now }
{
    let mut times: u32 = 0;
    for listed in row {
        times += (number == *listed) as u32;
    }
    times != 0
}

// Whether two rows of cells are the same. This and the two below are the library's: the search for a name, a load and a
// fresh start go through them, and the must-fail edits turn them; elsewhere crates call the library's.
pub fn same_cells(left: &[u32], right: &[u32]) -> bool
    requires { length left.now ≡ length right.now }
    ensures { result ≡ same left.now right.now }
{
    left == right
}

// The cells become those of another row of the same length.
pub fn copy_cells(from: &[u32], to: &mut [u32])
    requires { length from.now ≡ length to.old }
    ensures { to.new ≡ from.now }
{
    to.copy_from_slice(from);
}

// All cells become the number.
pub fn fill_cells(to: &mut [u32], number: u32)
    ensures { to.new ≡ replicate (length to.old) number }
{
    to.fill(number);
}

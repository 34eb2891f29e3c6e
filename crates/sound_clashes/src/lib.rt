// Whether two records have names that clash, told by their keys.
#![tactic(auto)]

ghost use Rattle.std.specs.Prelude.{◌≡◌, true, ◌+◌, ◌<◌, length};
ghost use Rattle.placing.specs.Sizes.{record_length};
ghost use Rattle.tables.specs.Layout.{record_of, record_at};
ghost use Rattle.tables.specs.Fields.{is_used};
ghost use Rattle.tables.specs.Records.{clash};
ghost use Rattle.sound_clashes.specs.Halves.{kinb, Halved};

use placing::{PLACES, RECORD_LENGTH, RECORDS_START};
use tables::layout;

// Of one owner, or both public.
fn kin(left: &[u32], right: &[u32]) -> bool
    requires { (length left.now ≡ record_length) × (length right.now ≡ record_length) }
    ensures { result ≡ kinb (record_of left.now) (record_of right.now) }
{
    if left[layout::RECORD_OWNER] == right[layout::RECORD_OWNER] {
        return true;
    }
    if left[layout::RECORD_PRIVATE] != 0 {
        return false;
    }
    right[layout::RECORD_PRIVATE] == 0
}

// Whether the used record at place p clashes with the one at place q before it. Names that agree at all mostly agree at
// their beginning, so that the later half is compared first.
pub fn clashes(
    tables: &[u32],
    high: &[u64; PLACES],
    low: &[u64; PLACES],
    p: usize,
    q: usize,
) -> bool
    requires { Halved tables.now high.now low.now (p + 1) × (q < p) × (is_used (record_at tables.now p) ≡ true) }
    ensures { result ≡ clash (record_at tables.now p) (record_at tables.now q) }
{
    if low[p] != low[q] {
        return false;
    }
    if high[p] != high[q] {
        return false;
    }
    let here = RECORDS_START + RECORD_LENGTH * p;
    let beyond = here + RECORD_LENGTH;
    let there = RECORDS_START + RECORD_LENGTH * q;
    let after = there + RECORD_LENGTH;
    kin(&tables[here..beyond], &tables[there..after])
}

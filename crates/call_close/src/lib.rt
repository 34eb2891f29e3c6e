// The calls that end an opening: close, private or public, and abandon.
#![tactic(auto)]

ghost use Rattle.std.specs.Prelude.{◌≡◌, ◌<◌, length, Ok};
ghost use Rattle.combine.specs.Verdict.{done};
ghost use Rattle.combine.specs.Outcome.{outcome_of};
ghost use Rattle.answers.specs.Said.{said};
ghost use Rattle.placing.specs.Sizes.{entries, tables_length};
ghost use Rattle.rules.specs.Calls.{closes, abandons};
ghost use Rattle.tables.specs.Layout.{put_opening, closed_opening};
ghost use Rattle.cells.specs.Outcomes.{outcome, request_out};
ghost use Rattle.close_choice.specs.Planned.{InRange};
ghost use Rattle.call_close.specs.Carried.{carried};

use answers::Answer;
use close_choice::Plan;
use tables::Opening;

// The opening ends.
fn end(tables: &mut [u32], at: usize) -> Answer
    requires { (length tables.old ≡ tables_length) × (at < entries) }
    ensures { outcome_of (said result) tables.new ≡ outcome_of (done 0) (put_opening tables.old at closed_opening) }
{
    let closed = opening_values::closed_opening();
    tables_openings::put_opening(tables, at, closed);
    Ok(0)
}

// What was decided is carried out.
fn carry(tables: &mut [u32], at: usize, user: u32, opening: Opening, plan: Plan) -> Answer
    requires { (length tables.old ≡ tables_length) × (at < entries) × InRange (Ok plan) }
    ensures { outcome_of (said result) tables.new ≡ carried tables.old at user opening plan }
{
    match plan {
        Plan::Ends => end(tables, at),
        Plan::Unfiles(place) => {
            let filed = opening_values::unused_record();
            tables_records::put_record(tables, place, filed);
            end(tables, at)
        }
        Plan::Files(place, public) => {
            let filed = opening_values::filed_record(opening, user, public);
            tables_records::put_record(tables, place, filed);
            end(tables, at)
        }
    }
}

pub fn close(store: &[u32], tables: &mut [u32], user: u32, entry: u32, public: bool) -> Answer
    ensures { outcome result store.now tables.new ≡ request_out (closes public) store.now tables.old user entry }
{
    let at = gate::reach(store.len(), tables, user, entry)?;
    let opening = tables_openings::load_opening(tables, at);
    let plan = close_choice::decide(tables, user, opening, public)?;
    carry(tables, at, user, opening, plan)
}

// "Abandon: the opening ends, segments listed only by it become free, the record is untouched."
pub fn abandon(store: &[u32], tables: &mut [u32], user: u32, entry: u32) -> Answer
    ensures { outcome result store.now tables.new ≡ request_out abandons store.now tables.old user entry }
{
    let opened = gate::reach(store.len(), tables, user, entry)?;
    end(tables, opened)
}

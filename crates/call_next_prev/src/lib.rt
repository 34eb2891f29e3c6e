// The calls `next` and `prev`, plain and signed.
#![tactic(auto)]

ghost use Rattle.std.specs.Prelude.{◌≡◌, length};
ghost use Rattle.rules.specs.Calls.{uses, next, prev};
ghost use Rattle.tables.specs.Layout.{opening_at};
ghost use Rattle.tables.specs.Handles.{handle_in};
ghost use Rattle.cells.specs.Outcomes.{outcome, request_out};
ghost use Rattle.gate_laws.specs.Standing.{Standing};
ghost use Rattle.gate_laws.specs.Used.{used_out};
ghost use Rattle.call_next_prev.specs.Reads.{act_of, rule_of};

use answers::Answer;
use placing::{Position, Segment};

pub mod directions; // what differs between next and prev
pub mod readings; // what is to be delivered
pub mod delivery; // it is delivered
pub mod signed; // the signed calls

// Which way a reading call goes: next forward, prev backward.
#[derive(Clone, Copy)]
pub enum Direction {
    Forward,
    Backward,
}

// What a reading call is to deliver: the element at a position, in the segment of its stretch.
#[derive(Clone, Copy)]
pub struct Reading {
    pub segment: Segment,
    pub position: Position,
}

impl Direction {
    // A call behind the gate, at an open entry of 32; `signed` says which kind of call it is.
    pub fn call_at(
        self,
        store: &[u32],
        tables: &mut [u32],
        at: usize,
        pointer: u32,
        signed: bool,
    ) -> Answer
        requires { Standing (length store.now) tables.old at }
        ensures { outcome result store.now tables.new ≡ used_out store.now tables.old at (opening_at tables.old at) (rule_of self signed pointer (handle_in (opening_at tables.old at))) }
    {
        let opening = tables_openings::load_opening(tables, at);
        let reading = self.read(opening, pointer, signed);
        self.deliver(store, tables, at, opening, pointer, signed, reading)
    }

    // A call, plain or signed: the bits of the element are the answer.
    fn call(
        self,
        store: &[u32],
        tables: &mut [u32],
        user: u32,
        entry: u32,
        pointer: u32,
        signed: bool,
    ) -> Answer
        ensures { outcome result store.now tables.new ≡ request_out (uses (act_of self signed pointer)) store.now tables.old user entry }
    {
        let at = gate::reach(store.len(), tables, user, entry)?;
        self.call_at(store, tables, at, pointer, signed)
    }
}

// Delivers the element at a pointer of an entry of a user; the pointer grows.
pub fn next(store: &[u32], tables: &mut [u32], user: u32, entry: u32, pointer: u32) -> Answer
    ensures { outcome result store.now tables.new ≡ request_out (uses (next pointer)) store.now tables.old user entry }
{
    Direction::Forward.call(store, tables, user, entry, pointer, false)
}

// Delivers the element before a pointer of an entry of a user; the pointer falls.
pub fn prev(store: &[u32], tables: &mut [u32], user: u32, entry: u32, pointer: u32) -> Answer
    ensures { outcome result store.now tables.new ≡ request_out (uses (prev pointer)) store.now tables.old user entry }
{
    Direction::Backward.call(store, tables, user, entry, pointer, false)
}

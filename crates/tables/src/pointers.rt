// The methods by value of an opening: each hands the opening back, or, where it can refuse, the number of its answer and the
// opening as it is then; a refusal touches nothing.
ghost use Rattle.std.specs.Prelude.{◌≡◌, ◌≤◌, MatchOption};
ghost use Rattle.combine.specs.Verdict.{on_done};
ghost use Rattle.combine.specs.Outcome.{settle};
ghost use Rattle.placing.specs.Placing.{position};
ghost use Rattle.rules.specs.Access.{new_pointer_rule, delete_pointer_rule, rename_rule};
ghost use Rattle.tables.specs.Fields.{value_of};
ghost use Rattle.tables.specs.Handles.{handle_in, pointed, carried};
ghost use Rattle.tables.specs.Pointers.{lowest_free_pointer};
ghost use Rattle.tables.specs.Told.{answered};

use crate::Opening;
use answers::Refusal;
use placing::{FIRST_OWN_POINTER, GREATEST_POINTER, NAME_SYMBOLS, Position};

// The number after the greatest pointer's.
const BEYOND_POINTERS: u32 = GREATEST_POINTER + 1;

impl Opening {
    // The value of a pointer, or what stands for it where there is no such pointer; any number.
    pub fn value(self, pointer: u32) -> Position
        ensures { result.0 ≡ value_of self pointer }
    {
        if GREATEST_POINTER < pointer {
            return Position::none();
        }
        let at = pointer as usize;
        self.pointers[at]
    }

    // "Reset puts pointer 2 at the begin value."
    pub fn reset(self) -> Opening
        ensures { result ≡ pointed self 2 (position (value_of self 0)) }
    {
        let begin = self.value(0);
        self.step(2, begin)
    }

    // The pointer at another position.
    pub fn step(mut self, pointer: u32, to: Position) -> Opening
        requires { pointer ≤ 7 }
        ensures { result ≡ pointed self pointer to }
    {
        let at = pointer as usize;
        self.pointers[at] = to;
        self
    }

    // The lowest name of an own pointer that is free.
    fn free_pointer(self) -> Option<u32>
        ensures { MatchOption result (lowest_free_pointer self ≡ 8) (λ p. (p ≡ lowest_free_pointer self) × (p ≤ 7)) }
    {
        for pointer in FIRST_OWN_POINTER..BEYOND_POINTERS {
            if self.value(pointer).is_none() {
                return Some(pointer);
            }
        }
        None
    }

    // "A new own pointer takes the lowest free name, which is the answer, and the value of a given pointer."
    pub fn new_pointer(self, pointer: u32) -> Result<(u32, Opening), Refusal>
        ensures { answered self result ≡ settle self (on_done (carried self) (new_pointer_rule pointer (handle_in self))) }
    {
        let given = self.value(pointer);
        if given.is_none() {
            return Err(Refusal::Pointer);
        }
        let Some(free) = self.free_pointer() else {
            return Err(Refusal::Pointers);
        };
        Ok((free, self.step(free, given)))
    }

    // "Only 3 to 7 can be deleted."
    pub fn delete_pointer(self, pointer: u32) -> Result<(u32, Opening), Refusal>
        ensures { answered self result ≡ settle self (on_done (carried self) (delete_pointer_rule pointer (handle_in self))) }
    {
        let value = self.value(pointer);
        if value.is_none() {
            return Err(Refusal::Pointer);
        }
        if pointer < FIRST_OWN_POINTER {
            return Err(Refusal::Pointer);
        }
        let none = Position::none();
        Ok((0, self.step(pointer, none)))
    }

    // "Renaming (needs the work permit) changes the opening's name only."
    pub fn rename(mut self, name: [u32; NAME_SYMBOLS]) -> Result<(u32, Opening), Refusal>
        ensures { answered self result ≡ settle self (on_done (carried self) (rename_rule name (handle_in self))) }
    {
        if self.permit != 1 {
            return Err(Refusal::Permit);
        }
        self.name = name;
        Ok((0, self))
    }
}

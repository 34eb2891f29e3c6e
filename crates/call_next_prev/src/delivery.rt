// What is to be delivered is answered.
ghost use Rattle.std.specs.Prelude.{◌≡◌, ◌*◌, ◌≤◌, ◌<◌, length};
ghost use Rattle.placing.specs.Sizes.{segment_cells, tables_length, entries};
ghost use Rattle.tables.specs.Layout.{segments_in};
ghost use Rattle.tables.specs.Fields.{value_of};
ghost use Rattle.tables.specs.Handles.{handle_in};
ghost use Rattle.cells.specs.Outcomes.{outcome};
ghost use Rattle.opening_laws.specs.Back.{OpenFile};
ghost use Rattle.gate_laws.specs.Known.{Known};
ghost use Rattle.gate_laws.specs.Used.{used_out};
ghost use Rattle.call_next_prev.specs.Reads.{rule_of, left_by, from_of, ReadPlan};

use crate::{Direction, Reading};
use answers::{Answer, Refusal};
use placing::Position;
use tables::Opening;

impl Direction {
    // The opening after the position is delivered: "v grows. Through 0 the element leaves the file.", "v falls by 1 ..
    // Through 1 the element leaves the file."
    fn after(self, opening: Opening, pointer: u32, position: Position) -> Opening
        requires { OpenFile opening × (pointer < 8) × (value_of opening 0 ≤ position.0) × (position.0 < value_of opening 1) × (value_of opening pointer ≡ from_of self position.0) }
        ensures { result ≡ left_by self opening pointer }
    {
        if pointer == self.edge() {
            return self.shortened(opening);
        }
        let value = self.moved(position);
        opening.step(pointer, value)
    }

    // The element is the answer, and the opening is put back as it is then; what is refused changes nothing.
    pub fn deliver(
        self,
        store: &[u32],
        tables: &mut [u32],
        entry: usize,
        opening: Opening,
        pointer: u32,
        signed: bool,
        reading: Result<Reading, Refusal>,
    ) -> Answer
        requires { (length tables.old ≡ tables_length) × (entry < entries) × (segments_in tables.old * segment_cells ≤ length store.now) × Known tables.old opening × ReadPlan self opening signed pointer reading }
        ensures { outcome result store.now tables.new ≡ used_out store.now tables.old entry opening (rule_of self signed pointer (handle_in opening)) }
    {
        let reading = reading?;
        let after = self.after(opening, pointer, reading.position);
        let element = store::take_element(
            store,
            opening.species,
            reading.segment,
            reading.position,
        );
        tables_openings::put_opening(tables, entry, after);
        Ok(element)
    }
}

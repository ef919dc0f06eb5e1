// The fields of a line that its file holds.
ghost use Rattle.std.specs.Prelude.{◌≡◌, ◌+◌, ◌*◌, ◌≤◌, length, IfOk, None, ltb};
ghost use Rattle.records.specs.Notation.{pick};
ghost use Rattle.records.specs.Records.{fields};
ghost use Rattle.records.specs.Refusals.{fault_of};
ghost use Rattle.format.specs.Lines.{field_at, value_at, fields_fault, written_fault, Holds};

use crate::cursor::Cursor;
use crate::lines::{Line, is_force};
use ranges::range_allows;
use records::FIELDS_MOST;
use records::refusal::Refusal;

// A line whose fields its file holds.
#[derive(Clone, Copy)]
pub(crate) struct HeldLine<'a> {
    pub(crate) line: Line<'a>,
    ghost held: { line.at + 1 + 8 * fields line.kind ≤ length line.file.now },
}

impl<'a> HeldLine<'a> {
    // Its fields, from the first on.
    fn fields(self) -> Fields<'a>
        ensures line { result.held.line ≡ self.entry.line }
        ensures first { result.j ≡ 0 }
    {
        Fields {
            held: self,
            cursor: Cursor {
                at: self.line.at + 1,
            },
            j: 0,
        }
    }

    // The number that field j holds: none where the line has no such field or the field is not written as it must be.
    #[tactic(auto, unfolding(crate::specs::Lines::field_at))]
    pub(crate) fn number(&self, j: usize) -> Option<u64>
        ensures { result ≡ pick (ltb j (fields self.now.line.kind)) (field_at self.now.line.kind self.now.line.file.now self.now.line.at j) None }
    {
        if self.line.kind.field_count() <= j {
            return None;
        }
        let cursor = Cursor {
            at: self.line.at + 1 + 8 * j,
        };
        let (field, _) = cursor.field(self.line.file, is_force(self.line.kind, j));
        field.ok()
    }

    // The number that its third field holds: 0 where the field is not written as it must be.
    #[tactic(auto, using(crate::proofs::Fields::third_value))]
    fn third(&self) -> u64
        ensures { result ≡ value_at self.now.line.kind self.now.line.file.now self.now.line.at 2 }
    {
        self.number(2).unwrap_or(0)
    }

    // The numbers of its fields, or the first refusal.
    pub(crate) fn numbers(&self) -> Result<[u64; FIELDS_MOST], Refusal>
        ensures fault { fault_of result ≡ written_fault self.now.line.kind self.now.line.file.now self.now.line.at }
        ensures values { IfOk result (Holds self.now.line.kind self.now.line.file.now self.now.line.at) }
    {
        let mut values = [0; FIELDS_MOST];
        for (j, field) in self.fields() {
            values[j] = field?;
        }
        Ok(values)
    }

    // The first refusal among its fields.
    pub(crate) fn check(&self) -> Result<(), Refusal>
        ensures { fault_of result ≡ fields_fault self.now.line.kind self.now.line.file.now self.now.line.at }
    {
        let storeys = self.third();
        for (j, field) in self.fields() {
            if !range_allows(self.line.kind, j, field?, storeys) {
                return Err(Refusal::OutOfRange);
            }
        }
        Ok(())
    }
}

// Its fields, one after another, each with its place, as the cursor takes them. The next has the place j.
#[derive(Drop)]
struct Fields<'a> {
    held: HeldLine<'a>,
    cursor: Cursor,
    j: usize,
    ghost place: { cursor.at ≡ held.line.at + 1 + 8 * j },
}

impl Iterator for Fields<'_> {
    ghost use Rattle.std.specs.Iterator.{at_most};
    ghost use Rattle.format.specs.LineFields.{GivesField, fields_left};

    type Item = (usize, Result<u64, Refusal>);

    ghost next_gives = { GivesField };

    ghost remaining = { λ f. at_most (fields_left f) };

    #[tactic(auto, unfolding(crate::specs::Lines::field_at))]
    fn next(&mut self) -> Option<(usize, Result<u64, Refusal>)> {
        let line = self.held.line;
        let j = self.j;
        if j < line.kind.field_count() {
            let (field, cursor) = self.cursor.field(line.file, is_force(line.kind, j));
            self.cursor = cursor;
            self.j = j + 1;
            Some((j, field))
        } else {
            None
        }
    }
}

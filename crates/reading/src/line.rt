// The checks of one line, in their order.
ghost use Rattle.std.specs.Prelude.{◌≡◌, ◌<◌, IfOk};
ghost use Rattle.records.specs.Refusals.{fault_of};
ghost use Rattle.format.specs.Lines.{Holds};
ghost use Rattle.reading.specs.Checks.{line_first, repeats};
ghost use Rattle.reading.specs.Survey.{case_number_fault};

use format::lines::Line;
use ranges::line_in_ranges;
use records::FIELDS_MOST;
use records::refusal::Refusal;

// The checks of a line, one after another.
fn check_line(line: &Line, row_free: bool) -> Result<(), Refusal>
    ensures { fault_of result ≡ line_first line.now.kind line.now.file.now line.now.at row_free }
{
    if !line.is_shaped() {
        return Err(Refusal::Structure);
    }
    if !row_free {
        return Err(Refusal::TooLarge);
    }
    line.check_fields()
}

// The numbers of a line, or its first refusal. Its fields are read first: where none is refused, there is no LF among them, and no check is left.
pub(crate) fn read_line(line: &Line, row_free: bool) -> Result<[u64; FIELDS_MOST], Refusal>
    ensures fault { fault_of result ≡ line_first line.now.kind line.now.file.now line.now.at row_free }
    ensures values { IfOk result (Holds line.now.kind line.now.file.now line.now.at) }
{
    if row_free
        && line.is_framed()
        && let Ok(values) = line.read_fields()
        && line_in_ranges(line.kind, &values)
    {
        return Ok(values);
    }
    check_line(line, row_free)?;
    line.read_fields()
}

// 12 where the number of D line c, counted from 0, is another.
pub(crate) fn check_case_number(number: u64, c: usize) -> Result<(), Refusal>
    requires { c < 4 }
    ensures { fault_of result ≡ case_number_fault number c }
{
    if number == (c + 1) as u64 {
        Ok(())
    } else {
        Err(Refusal::CaseMisnumbered)
    }
}

// 5 where the number of a record is one of those before it.
#[tactic(auto, using(crate::proofs::Storeys::repeats_listed))]
pub(crate) fn check_new(number: u64, before: &[u64]) -> Result<(), Refusal>
    ensures { fault_of result ≡ repeats before.now number }
{
    if before.contains(&number) {
        Err(Refusal::NumberRepeated)
    } else {
        Ok(())
    }
}

// The report call, over lent rows of storeys and members.
ghost use Rattle.std.specs.Prelude.{◌≡◌, length};
ghost use Rattle.records.specs.Forms.{form_number};
ghost use Rattle.records.specs.Refusals.{numbered};
ghost use Rattle.checks.specs.RowChecks.{records_of};
ghost use Rattle.storeys.specs.Storey.{published_rules, storey_risky};
ghost use Rattle.storeys.specs.Building.{some_risky};
ghost use Rattle.columns.specs.Writer.{HasRoom, Written};
ghost use Rattle.report.specs.Printing.{sheet_storeys};
ghost use Rattle.report.specs.Sheet.{storey_lines, sheet, report_answer, returned_report, report_returned, buffer_after};

use crate::printed::{StoreyCase, put_building};
use crate::{
    BUILDING_LINE_SIZE, MEMBER_CASE_LINE_SIZE, MEMBER_LINE_SIZE, STOREY_CASE_LINE_SIZE,
    STOREY_LINE_SIZE,
};
use checks::Survey;
use columns::writer::ColumnWriter;
use records::form::Form;
use records::refusal::Refusal;
use storeys::good_storey::GoodStorey;
use storeys::good_survey::GoodSurvey;

// The lines of a good storey in each load case of its form. Whether it is Risky in some case.
fn put_storey(writer: &mut ColumnWriter, good: &GoodStorey) -> bool
    requires { let g = good.now in HasRoom (length (storey_lines (form_number g.form) g.level.hundredths g.storey.now g.members.now)) writer.old }
    ensures risky { let g = good.now in result ≡ storey_risky published_rules (form_number g.form) g.level.hundredths g.storey.now g.members.now }
    ensures written { let g = good.now in Written (storey_lines (form_number g.form) g.level.hundredths g.storey.now g.members.now) writer.old writer.new }
{
    let mut risky = false;
    for case in 0..good.form.case_count() {
        let storey = StoreyCase { good: *good, case };
        risky |= storey.put(writer);
    }
    risky
}

// The lines of the storeys of a good survey. Whether some storey is Risky.
fn put_storeys(writer: &mut ColumnWriter, good: &GoodSurvey) -> bool
    requires { HasRoom (length (sheet_storeys (records_of good.now.survey))) writer.old }
    ensures risky { result ≡ some_risky published_rules (records_of good.now.survey) }
    ensures written { Written (sheet_storeys (records_of good.now.survey)) writer.old writer.new }
{
    let mut risky = false;
    for storey in good.storeys() {
        risky |= put_storey(writer, &storey);
    }
    risky
}

// The sheet of a good survey.
fn put_sheet(writer: &mut ColumnWriter, good: &GoodSurvey)
    requires { HasRoom (length (sheet (records_of good.now.survey))) writer.old }
    ensures { Written (sheet (records_of good.now.survey)) writer.old writer.new }
{
    let some_risky = put_storeys(writer, good);
    put_building(writer, &good.survey.header, some_risky);
}

// How many bytes the sheet of a good survey takes.
#[tactic(auto, using(crate::proofs::Called::few_rows, crate::proofs::Called::size_is))]
fn sheet_size(good: &GoodSurvey) -> usize
    ensures { result ≡ length (sheet (records_of good.now.survey)) }
{
    let (member_line, storey_line) = match good.form {
        Form::Old => (MEMBER_LINE_SIZE, STOREY_LINE_SIZE),
        Form::FourCases => (MEMBER_CASE_LINE_SIZE, STOREY_CASE_LINE_SIZE),
    };
    let members = good.survey.members.len();
    let storeys = good.survey.storeys.len();
    good.form.case_count() * (member_line * members + storey_line * storeys) + BUILDING_LINE_SIZE
}

// The report call: an accepted survey's sheet, from the front of the lent bytes; gives its length.
pub fn write_report(survey: &Survey, out: &mut [u8]) -> Result<usize, Refusal>
    ensures answer { numbered result ≡ report_answer (records_of survey.now) (length out.old) }
    ensures returned { returned_report (numbered result) ≡ report_returned (records_of survey.now) (length out.old) }
    ensures out_after { out.new ≡ buffer_after (records_of survey.now) out.old }
{
    let good = GoodSurvey::try_from(*survey)?;
    if out.len() < sheet_size(&good) {
        return Err(Refusal::SheetTooLong);
    }
    let mut writer = ColumnWriter::new(out);
    put_sheet(&mut writer, &good);
    Ok(writer.place())
}

// The writing call.
ghost use Rattle.std.specs.Prelude.{◌≡◌, ◌≤◌, length};
ghost use Rattle.records.specs.Forms.{form_number};
ghost use Rattle.records.specs.Refusals.{numbered};
ghost use Rattle.checks.specs.RowChecks.{records_of};
ghost use Rattle.writing.specs.Sizes.{file_size};
ghost use Rattle.writing.specs.Writing.{file_answer, returned_file, file_returned, file_after_call};

use crate::lines::put_survey;
use checks::Survey;
use columns::writer::ColumnWriter;
use format::lines::{line_size, member_size};
use records::Kind;
use records::form::Form;
use records::refusal::Refusal;

// How many bytes a file of a form takes.
fn file_size(form: Form, storeys: usize, members: usize) -> usize
    requires { (storeys ≤ 10) × (members ≤ 2_000) }
    ensures { result ≡ file_size (form_number form) storeys members }
{
    line_size(Kind::B) + line_size(form.storey_kind()) * storeys + member_size(form) * members
}

// The writing call: the file of good records, from the front of the lent bytes, and its length.
pub fn write_file(survey: &Survey, out: &mut [u8]) -> Result<usize, Refusal>
    ensures answer { numbered result ≡ file_answer (records_of survey.now) (length out.old) }
    ensures returned { returned_file (numbered result) ≡ file_returned (records_of survey.now) (length out.old) }
    ensures out_after { out.new ≡ file_after_call (records_of survey.now) out.old }
{
    let form = survey.check()?;
    let size = file_size(form, survey.storeys.len(), survey.members.len());
    if out.len() < size {
        return Err(Refusal::FileTooLong);
    }
    let mut writer = ColumnWriter::new(out);
    put_survey(&mut writer, form, survey);
    Ok(writer.place())
}

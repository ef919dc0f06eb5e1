// The report call, and the way from a file's bytes to the sheet's.
ghost use Rattle.std.specs.Prelude.{◌≡◌, length};
ghost use Rattle.records.specs.Records.{survey_of};
ghost use Rattle.columns.specs.Line.{at_front, put_length};
ghost use Rattle.report.specs.Sheet.{report_returned, buffer_after};
ghost use Rattle.determination.specs.Determination.{printed};
ghost use Rattle.handed.specs.Handed.{header_handed};
ghost use Rattle.exports.specs.Calls.{report_count, if_room, given, out_after_call};

use crate::{SHORT, survey_given};
use answers::put_answer;
use determination::determine;
use records::{Member, Storey};
use report::sheet::write_report;

const REPORT_COUNT: usize = 1;

// The report of a building, given as for its judgment: the sheet from the front of the bytes.
#[unsafe(no_mangle)]
pub extern "C" fn llunareth_report(
    header: &[u64],
    storeys: &[Storey],
    members: &[Member],
    sheet: &mut [u8],
    out: &mut [u64],
) -> u64
    ensures value { result ≡ given report_count (report_returned (survey_of (header_handed header.now) storeys.now members.now) (length sheet.old)) out.old }
    ensures out_after { out.new ≡ out_after_call report_count (report_returned (survey_of (header_handed header.now) storeys.now members.now) (length sheet.old)) out.old }
    ensures sheet_after { sheet.new ≡ if_room report_count out.old (buffer_after (survey_of (header_handed header.now) storeys.now members.now) sheet.old) sheet.old }
{
    if out.len() < REPORT_COUNT {
        return SHORT;
    }
    let survey = survey_given(header, storeys, members);
    put_answer(out, write_report(&survey, sheet))
}

// What `determine` prints for a file, from the front of the bytes; gives its length, 0 where it does not fit. It has no refusal: the sheet or the `E` line is the answer.
#[unsafe(no_mangle)]
pub extern "C" fn llunareth_determine(input: &[u8], out: &mut [u8]) -> usize
    ensures value { result ≡ put_length (printed input.now (length out.old)) (length out.old) }
    ensures out_after { out.new ≡ at_front (printed input.now (length out.old)) out.old }
{
    determine(input, out)
}

// The writing call.
ghost use Rattle.std.specs.Prelude.{◌≡◌, length};
ghost use Rattle.records.specs.Records.{survey_of};
ghost use Rattle.handed.specs.Handed.{header_handed};
ghost use Rattle.writing.specs.Writing.{file_returned, file_after_call};
ghost use Rattle.exports.specs.Calls.{file_count, if_room, given, out_after_call};

use crate::{SHORT, survey_given};
use answers::put_answer;
use records::{Member, Storey};
use writing::file::write_file;

const FILE_COUNT: usize = 1;

// A survey, given as for its judgment, as a file: its bytes from the front of the buffer.
#[unsafe(no_mangle)]
pub extern "C" fn llunareth_write(
    header: &[u64],
    storeys: &[Storey],
    members: &[Member],
    file: &mut [u8],
    out: &mut [u64],
) -> u64
    ensures value { result ≡ given file_count (file_returned (survey_of (header_handed header.now) storeys.now members.now) (length file.old)) out.old }
    ensures out_after { out.new ≡ out_after_call file_count (file_returned (survey_of (header_handed header.now) storeys.now members.now) (length file.old)) out.old }
    ensures file_after { file.new ≡ if_room file_count out.old (file_after_call (survey_of (header_handed header.now) storeys.now members.now) file.old) file.old }
{
    if out.len() < FILE_COUNT {
        return SHORT;
    }
    let survey = survey_given(header, storeys, members);
    put_answer(out, write_file(&survey, file))
}

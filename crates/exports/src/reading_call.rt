// The reading call.
ghost use Rattle.std.specs.Prelude.{◌≡◌, ◌≤◌, length};
ghost use Rattle.records.specs.Refusals.{refusal_number};
ghost use Rattle.reading.specs.Survey.{survey};
ghost use Rattle.reading.specs.Answer.{tells, told, storeys_after_call, members_after_call};
ghost use Rattle.answers.specs.Packing.{packing, packed};
ghost use Rattle.exports.specs.Calls.{reading_count, if_room, given, out_after_call, reading_returned};
ghost use Rattle.columns.specs.Line.{at_front};

use crate::SHORT;
use answers::put_words;
use reading::rows::read;
use reading::survey::{Filled, LineRefusal};
use records::refusal::Refusal;
use records::{Member, Storey};

const READING_COUNT: usize = 9;

// A refusal and its line in one number. On records the line is 0, and the refusal stands for both.
fn pack(refusal: Refusal, line: u64) -> u64
    requires { line ≤ 65_536 }
    ensures { result ≡ packing (refusal_number refusal) line }
{
    refusal.number() + 256 * line
}

// Puts the values of an accepted file: the header's seven numbers, the numbers of rows filled. Gives refusal and line.
fn put_reading(out: &mut [u64], r: Result<Filled, LineRefusal>) -> u64
    requires { (reading_returned (tells r)).line ≤ 65_536 }
    ensures value { result ≡ packed (reading_returned (tells r)) }
    ensures out_after { out.new ≡ at_front (reading_returned (tells r)).values out.old }
{
    match r {
        Ok(filled) => {
            let header = filled.header;
            let values = [
                header.knowledge,
                header.height,
                header.storeys,
                header.tilt1,
                header.tilt2,
                header.count,
                header.form,
                filled.storeys as u64,
                filled.members as u64,
            ];
            put_words(out, &values);
            0
        }
        Err(LineRefusal { refusal, line }) => pack(refusal, line),
    }
}

// Reads a file into lent rows.
#[unsafe(no_mangle)]
pub extern "C" fn llunareth_read(
    s: &[u8],
    storeys: &mut [Storey],
    members: &mut [Member],
    out: &mut [u64],
) -> u64
    ensures value { result ≡ given reading_count (reading_returned (told (survey s.now (length storeys.old) (length members.old)))) out.old }
    ensures out_after { out.new ≡ out_after_call reading_count (reading_returned (told (survey s.now (length storeys.old) (length members.old)))) out.old }
    ensures storeys_after { storeys.new ≡ if_room reading_count out.old (storeys_after_call (survey s.now (length storeys.old) (length members.old)) storeys.old) storeys.old }
    ensures members_after { members.new ≡ if_room reading_count out.old (members_after_call (survey s.now (length storeys.old) (length members.old)) members.old) members.old }
{
    if out.len() < READING_COUNT {
        return SHORT;
    }
    put_reading(out, read(s, storeys, members))
}

// Calls for programs in other languages, over numbers and slices. A call with an `out` gives refusal and line in one number and, accepted, puts its values to the front of `out`.
#![tactic(auto)]

pub mod judge_calls;
pub mod reading_call;
pub mod record_checks;
pub mod report_calls;
pub mod spectrum_calls;
pub mod version;
pub mod writing_call;

ghost use Rattle.std.specs.Prelude.{◌≡◌};
ghost use Rattle.records.specs.Records.{survey_of};
ghost use Rattle.checks.specs.RowChecks.{records_of};
ghost use Rattle.handed.specs.Handed.{header_handed};

use checks::Survey;
use handed::header_given;
use records::{Member, Storey};

// Given where `out` is too short for a call's values; no refusal is packed as this. Each call tests the room itself: one function over a closure for the rest is no
// plainer, because three of the calls change rows or bytes in that closure; nor is a count in the trait of answers, tested by `put_answer`, because these three have
// changed them before their answer is there.
pub(crate) const SHORT: u64 = 255;

// A building: its header, given by its seven numbers, its storeys, and the members of all of them in survey order.
pub(crate) fn survey_given<'a>(
    header: &[u64],
    storeys: &'a [Storey],
    members: &'a [Member],
) -> Survey<'a>
    ensures { records_of result ≡ survey_of (header_handed header.now) storeys.now members.now }
{
    Survey {
        header: header_given(header),
        storeys,
        members,
    }
}

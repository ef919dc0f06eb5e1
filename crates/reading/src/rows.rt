// The reading call.
ghost use Rattle.std.specs.Prelude.{◌≡◌, length};
ghost use Rattle.reading.specs.Survey.{survey};
ghost use Rattle.reading.specs.Answer.{tells, told, storeys_after_call, members_after_call};

use crate::survey::{File, Filled, LineRefusal};
use records::{Member, Storey};

// The bytes of a file, and rows lent for its storeys and members. An accepted file fills the rows from the front.
pub fn read(s: &[u8], storeys: &mut [Storey], members: &mut [Member]) -> Result<Filled, LineRefusal>
    ensures answer_value { tells result ≡ told (survey s.now (length storeys.old) (length members.old)) }
    ensures storeys_after { storeys.new ≡ storeys_after_call (survey s.now (length storeys.old) (length members.old)) storeys.old }
    ensures members_after { members.new ≡ members_after_call (survey s.now (length storeys.old) (length members.old)) members.old }
{
    let file = File::new(s);
    let filled = file.check(storeys.len(), members.len())?;
    file.fill(&mut storeys[..filled.storeys], members);
    Ok(filled)
}

// The storeys of a survey in turn, each with its own members: as many as it counts, from the front of the members that are left.
ghost use Rattle.std.specs.Prelude.{◌≡◌};
ghost use Rattle.std.specs.Iterator.{item_count};
ghost use Rattle.checks.specs.RowsInTurn.{storeys_left, members_left, GivesStorey};

use records::{Member, Storey};

// The storeys that are left, and the members of all of them.
#[derive(Drop)]
pub struct StoreyRows<'a> {
    storeys: &'a [Storey],
    members: &'a [Member],
}

impl<'a> StoreyRows<'a> {
    pub fn new(storeys: &'a [Storey], members: &'a [Member]) -> StoreyRows<'a>
        ensures storeys { storeys_left result ≡ storeys.now }
        ensures members { members_left result ≡ members.now }
    {
        StoreyRows { storeys, members }
    }
}

impl<'a> Iterator for StoreyRows<'a> {
    type Item = (&'a Storey, &'a [Member]);

    ghost next_gives = { GivesStorey };

    ghost remaining = { item_count storeys_left };

    fn next(&mut self) -> Option<(&'a Storey, &'a [Member])> {
        let (storey, storeys) = self.storeys.split_first()?;
        let count = storey.member_count().min(self.members.len());
        let (own, members) = self.members.split_at(count);
        self.storeys = storeys;
        self.members = members;
        Some((storey, own))
    }
}

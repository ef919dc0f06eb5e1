// How a member would fail (document 01, "Member"): its class.
ghost use Rattle.std.specs.Prelude.{◌≡◌};
ghost use Rattle.members.specs.Class.{code, is_wall};

use records::MemberCase;

#[derive(Clone, Copy)]
pub enum Class {
    ColumnA,
    ColumnB,
    ColumnC,
    WallA,
    WallB,
}

impl Class {
    // The printed number of the class.
    pub fn code(self) -> u64
        ensures { result ≡ code self }
    {
        match self {
            Class::ColumnA => 1,
            Class::ColumnB => 2,
            Class::ColumnC => 3,
            Class::WallA => 4,
            Class::WallB => 5,
        }
    }
}

// A wall, whatever the record holds: the long side is at least five times the short one.
pub fn is_wall(m: &MemberCase) -> bool
    ensures { result ≡ is_wall m.now }
{
    m.short <= m.long / 5
}

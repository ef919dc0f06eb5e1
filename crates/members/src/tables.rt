// The tables of limits (document 01, "Member"). A set is data: the places of its rows, and for m and for the rotation the limits that stand there.
ghost use Rattle.std.specs.Prelude.{◌≡◌};
ghost use Rattle.members.specs.Tables.{places, moments, rotations, published, published_share};

use crate::limits::Row;

// Where the rows stand.
#[derive(Clone, Copy)]
pub struct Places {
    // n of the columns' rows
    pub axial: [u64; 4],
    // ρ of column class B
    pub hoops: [u64; 2],
    // n of the walls' rows
    pub walls: [u64; 2],
    // v of the walls' rows
    pub stress: [u64; 2],
}

// The limits at the rows, of m or of the rotation.
#[derive(Clone, Copy)]
pub struct Table {
    // column A at the four n
    pub a: [u64; 4],
    // column B at the four n, at the first and at the second ρ
    pub b1: [u64; 4],
    pub b2: [u64; 4],
    // column C at the last two n
    pub c: [u64; 2],
    // wall A with boundary zone at the two v, at the first and at the second n
    pub zone1: [u64; 2],
    pub zone2: [u64; 2],
    // wall A without
    pub plain1: [u64; 2],
    pub plain2: [u64; 2],
    // wall B at the two v
    pub wall: [u64; 2],
}

// A whole set.
#[derive(Clone, Copy)]
pub struct LimitSet {
    pub places: Places,
    pub m: Table,
    pub rotation: Table,
}

impl Places {
    // Where the rows of the published set stand.
    #[tactic(auto, unfolding(crate::specs::Tables::places))]
    fn published() -> Self
        ensures { result ≡ places }
    {
        PLACES
    }
}

impl Table {
    // The published limits of m.
    #[tactic(auto, unfolding(crate::specs::Tables::moments))]
    fn moments() -> Self
        ensures { result ≡ moments }
    {
        MOMENTS
    }

    // The published limits of the rotation.
    #[tactic(auto, unfolding(crate::specs::Tables::rotations))]
    fn rotations() -> Self
        ensures { result ≡ rotations }
    {
        ROTATIONS
    }
}

impl LimitSet {
    // The set that document 01 publishes.
    pub fn published() -> Self
        ensures { result ≡ published }
    {
        LimitSet {
            places: Places::published(),
            m: Table::moments(),
            rotation: Table::rotations(),
        }
    }
}

const PLACES: Places = Places {
    axial: [10_000, 60_000, 70_000, 100_000],
    hoops: [500, 6_000],
    walls: [10_000, 25_000],
    stress: [90_000, 130_000],
};

const MOMENTS: Table = Table {
    a: [600_000, 300_000, 100_000, 100_000],
    b1: [250_000, 125_000, 100_000, 100_000],
    b2: [600_000, 300_000, 100_000, 100_000],
    c: [100_000, 100_000],
    zone1: [700_000, 400_000],
    zone2: [400_000, 250_000],
    plain1: [450_000, 250_000],
    plain2: [250_000, 150_000],
    wall: [500_000, 250_000],
};

const ROTATIONS: Table = Table {
    a: [40_000, 15_000, 5_000, 0],
    b1: [12_500, 5_000, 5_000, 0],
    b2: [35_000, 10_000, 5_000, 0],
    c: [5_000, 0],
    zone1: [30_000, 15_000],
    zone2: [20_000, 10_000],
    plain1: [15_000, 7_500],
    plain2: [10_000, 5_000],
    wall: [20_000, 10_000],
};

// The allowed share of a storey: two rows, each with the share in hundredths at an axial ratio per member, which stands on the grid of `Ratio`; linear between them.
#[derive(Clone, Copy)]
pub struct Share {
    pub first: Row,
    pub second: Row,
}

impl Share {
    // The share that document 02 publishes.
    pub fn published() -> Self
        ensures { result ≡ published_share }
    {
        PUBLISHED_SHARE
    }
}

const PUBLISHED_SHARE: Share = Share {
    first: Row {
        at: 10_000,
        limit: 35,
    },
    second: Row {
        at: 65_000,
        limit: 0,
    },
};

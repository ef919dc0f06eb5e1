// The limits of a class (document 01, "Member"): linear between rows and constant outside, exact until the one rounding at the end.
ghost use Rattle.std.specs.Prelude.{◌≡◌, ◌≤◌, ◌<◌};
ghost use Rattle.members.specs.Limits.{row_limit, along, segment, blend, gap, per, row, column_a, column_b, column_c, wall_rows, wall_a, wall_b, exact, quarters, round_m, round_rotation};
ghost use Rattle.members.specs.Tables.{two};
ghost use Rattle.members.specs.Sizes.{Places2, Most2, SizedRows, SizedPlaces, SizedTable, SizedRow, Mean};

use crate::class::Class;
use crate::tables::{Places, Table};
use crate::units::{HoopRatio, Microradians, Ratio};
use std::array;

// The ratios by which limits are read.
#[derive(Clone, Copy)]
pub struct Ratios {
    pub n: Ratio,
    pub v: Ratio,
    pub rho: HoopRatio,
}

// A row of a table: the limit, or the share, that stands at a place.
#[derive(Clone, Copy)]
pub struct Row {
    pub at: u64,
    pub limit: u64,
}

// An exact value.
#[derive(Clone, Copy)]
pub struct Fraction {
    pub num: u64,
    pub den: u64,
}

impl Row {
    fn new(at: u64, limit: u64) -> Row
        ensures { result ≡ row at limit }
    {
        Row { at, limit }
    }

    // The limit as it stands.
    fn alone(&self) -> Fraction
        ensures { result ≡ row_limit self.now }
    {
        Fraction {
            num: self.limit,
            den: 1,
        }
    }

    // Between this row and the next.
    fn segment(&self, next: &Row, x: u64) -> Fraction
        requires { (self.now.at ≤ x) × (x ≤ next.now.at) × SizedRow self.now × SizedRow next.now }
        ensures { (result ≡ segment self.now next.now x) × (result.den ≤ 200_000) }
    {
        Fraction {
            num: self.limit * (next.at - x) + next.limit * (x - self.at),
            den: next.at - self.at,
        }
    }
}

// Over the rows of a table: constant up to the first and from the last, linear between neighbours.
fn interpolate<const N: usize>(places: &[u64; N], limits: &[u64; N], x: u64) -> Fraction
    requires { (0 < N) × SizedRows N places.now limits.now }
    ensures { (result ≡ along N places.now limits.now x) × (result.den ≤ 200_000) }
{
    let mut from = Row::new(places[0], limits[0]);
    for (at, limit) in places.iter().zip(limits).skip(1) {
        if x <= from.at {
            return from.alone();
        }
        let to = Row::new(*at, *limit);
        if x <= to.at {
            return from.segment(&to, x);
        }
        from = to;
    }
    from.alone()
}

// The value at x between y1 and y2, which stand at two places, constant outside, times the gap of the places.
#[tactic(auto, unfolding(crate::specs::Limits::blend))]
fn blend(at: &[u64; 2], y1: u64, y2: u64, x: u64) -> u64
    requires { Places2 at.now × (y1 ≤ 9_999_999) × (y2 ≤ 9_999_999) }
    ensures { (result ≡ blend at.now (two y1 y2) x) × (result ≤ 4_000_000_000_000) }
{
    let to = x.clamp(at[0], at[1]);
    y1 * (at[1] - to) + y2 * (to - at[0])
}

fn gap(at: &[u64; 2]) -> u64
    ensures { result ≡ gap at.now }
{
    at[1].saturating_sub(at[0])
}

impl Fraction {
    // Of what was multiplied by g.
    fn per(self, g: u64) -> Fraction
        requires { (self.den ≤ 200_000) × (g ≤ 200_000) }
        ensures { result ≡ per g self }
    {
        Fraction {
            num: self.num,
            den: self.den * g,
        }
    }

    // A limit of m, of which so many quarters are kept.
    pub(crate) fn round_m(self, q: u64) -> Ratio
        requires { Mean 9_999_999 self × (q ≤ 4) }
        ensures { result ≡ round_m self q }
    {
        Ratio::steps(self.num * q, self.den * 4)
    }

    // A limit of the rotation, of which so many quarters and then so many hundredths are kept.
    #[tactic(auto, using(crate::proofs::Rounding::limit_below_cap))]
    pub(crate) fn round_rotation(self, q: u64, factor: u64) -> Microradians
        requires { Mean 999_999 self × (q ≤ 4) × (factor ≤ 100) }
        ensures { result ≡ round_rotation self q factor }
    {
        Microradians::steps(self.num * q * factor, self.den * 4 * 100)
    }
}

// The limits of m or of the rotation at the places of their rows.
#[derive(Clone, Copy)]
pub(crate) struct PlacedTable<'a> {
    pub places: &'a Places,
    pub table: &'a Table,
    ghost sized_places: { SizedPlaces places.now },
    ghost sized_table: { SizedTable 9_999_999 table.now },
}

impl PlacedTable<'_> {
    #[tactic(auto, unfolding(crate::specs::Limits::column_a))]
    fn column_a(&self, n: u64) -> Fraction
        ensures { result ≡ column_a self.now.places.now self.now.table.now n }
    {
        interpolate(&self.places.axial, &self.table.a, n)
    }

    // Column B: ρ first, at each row of n.
    #[tactic(auto, unfolding(crate::specs::Limits::column_b))]
    fn column_b(&self, n: u64, rho: u64) -> Fraction
        ensures { result ≡ column_b self.now.places.now self.now.table.now n rho }
    {
        let hoops = &self.places.hoops;
        let first = &self.table.b1;
        let second = &self.table.b2;
        let limits = array::from_fn(|i| blend(hoops, first[i], second[i], rho));
        interpolate(&self.places.axial, &limits, n).per(gap(hoops))
    }

    #[tactic(auto, unfolding(crate::specs::Limits::column_c))]
    fn column_c(&self, n: u64) -> Fraction
        ensures { result ≡ column_c self.now.places.now self.now.table.now n }
    {
        let last = [self.places.axial[2], self.places.axial[3]];
        interpolate(&last, &self.table.c, n)
    }

    // Wall A: v first, at each row of n.
    #[tactic(auto, unfolding(crate::specs::Limits::wall_rows))]
    fn wall_rows(&self, y1: &[u64; 2], y2: &[u64; 2], n: u64, v: u64) -> Fraction
        requires { Most2 9_999_999 y1.now × Most2 9_999_999 y2.now }
        ensures { result ≡ wall_rows self.now.places.now y1.now y2.now n v }
    {
        let stress = &self.places.stress;
        let rows = [y1, y2];
        let limits = array::from_fn(|i| blend(stress, rows[i][0], rows[i][1], v));
        interpolate(&self.places.walls, &limits, n).per(gap(stress))
    }

    fn wall_a(&self, zone: u64, n: u64, v: u64) -> Fraction
        ensures { result ≡ wall_a self.now.places.now self.now.table.now zone n v }
    {
        if zone == 1 {
            self.wall_rows(&self.table.zone1, &self.table.zone2, n, v)
        } else {
            self.wall_rows(&self.table.plain1, &self.table.plain2, n, v)
        }
    }

    #[tactic(auto, unfolding(crate::specs::Limits::wall_b))]
    fn wall_b(&self, v: u64) -> Fraction
        ensures { result ≡ wall_b self.now.places.now self.now.table.now v }
    {
        interpolate(&self.places.stress, &self.table.wall, v)
    }

    // The limit of a class, before 3/4, 1/2 and factor.
    pub(crate) fn exact(&self, class: Class, zone: u64, at: &Ratios) -> Fraction
        ensures { result ≡ exact self.now.places.now self.now.table.now class zone at.now.n.0 at.now.v.0 at.now.rho.0 }
    {
        match class {
            Class::ColumnA => self.column_a(at.n.0),
            Class::ColumnB => self.column_b(at.n.0, at.rho.0),
            Class::ColumnC => self.column_c(at.n.0),
            Class::WallA => self.wall_a(zone, at.n.0, at.v.0),
            Class::WallB => self.wall_b(at.v.0),
        }
    }
}

impl Class {
    // How many quarters of its limits a class keeps, by the marks of a member: strengthened, and detailed to annex E.
    pub(crate) fn quarters(self, strengthened: u64, annex_e: u64) -> u64
        ensures { result ≡ quarters self strengthened annex_e }
    {
        let column = if strengthened == 1 { 3 } else { 4 };
        let wall = if strengthened == 1 && annex_e == 0 {
            2
        } else {
            4
        };
        match self {
            Class::ColumnA | Class::ColumnB => column,
            Class::WallB => wall,
            Class::ColumnC | Class::WallA => 4,
        }
    }
}

// The two limits of a member.
#[derive(Clone, Copy)]
pub(crate) struct Limits {
    pub m: Ratio,
    pub rotation: Microradians,
}

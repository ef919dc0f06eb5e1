// The range of each field of a line, and a line with every field in its range.
#![tactic(auto)]

ghost use Rattle.std.specs.Prelude.{◌≡◌, ◌&&◌, ◌||◌, leb, eqb, get_or};
ghost use Rattle.records.specs.Records.{never, allows, header_ranges, ranges, line_in_range};
ghost use Rattle.records.specs.declared.Kind.TheVariants.{M, M4, D};
ghost use Rattle.ranges.specs.Rows.{row, rows};

use records::numbers::value_or;
use records::{
    CASE_AT, CASE_FIELDS, CASES, HEADER_FIELDS, Kind, MEMBER_CASES_FIELDS, MEMBER_FIELDS,
    STOREY_CASES_FIELDS, STOREY_FIELDS,
};

// The least and the greatest number that a field may hold.
#[derive(Clone, Copy)]
struct Range {
    least: u64,
    most: u64,
}

impl Range {
    fn allows(self, v: u64) -> bool
        ensures { result ≡ allows (row self) v }
    {
        self.least <= v && v <= self.most
    }
}

// The number of a storey or a member.
const NUMBER: Range = Range {
    least: 1,
    most: 9_999_999,
};

// A storey shear.
const SHEAR: Range = Range {
    least: 1,
    most: 9_999_999,
};

// The number of M lines of a storey.
const COUNT: Range = Range {
    least: 1,
    most: 200,
};

const LENGTH: Range = Range {
    least: 1,
    most: 99_999,
};

const AREA: Range = Range {
    least: 1,
    most: 9_999_999,
};

// f_cm and f_ctm.
const CONCRETE: Range = Range {
    least: 1,
    most: 9_999,
};

// f_yw.
const STEEL: Range = Range {
    least: 1,
    most: 99_999,
};

const SPACING: Range = Range {
    least: 1,
    most: 9_999,
};

// A_sh.
const HOOPS: Range = Range {
    least: 0,
    most: 99_999,
};

const MARK: Range = Range { least: 0, most: 1 };

const FACTOR: Range = Range {
    least: 0,
    most: 100,
};

const DAMAGE: Range = Range { least: 0, most: 4 };

// N_D and N_K, counted from -20,000,000.
const FORCE: Range = Range {
    least: 19_000_001,
    most: 29_999_999,
};

// A moment, a shear, a rotation, a drift, a tilt.
const DEMAND: Range = Range {
    least: 0,
    most: 9_999_999,
};

// M_p and V_r.
const CAPACITY: Range = Range {
    least: 1,
    most: 9_999_999,
};

const CASE_NUMBER: Range = Range {
    least: 1,
    most: CASES as u64,
};

// The two levels of k; a B line's first field is one of them.
const LEVELS: [u64; 2] = [90, 100];

// n_s.
const STOREYS: Range = Range { least: 1, most: 99 };

// H_T, n_s and the two tilts: a B line's fields 2 to 5. No more S lines follow than the building has storeys, its third field.
const HEADER: [Range; HEADER_FIELDS - 2] = [LENGTH, STOREYS, DEMAND, DEMAND];

const STOREY: [Range; STOREY_FIELDS] = [NUMBER, SHEAR, COUNT];

const STOREY_CASES: [Range; STOREY_CASES_FIELDS] = [NUMBER, SHEAR, SHEAR, SHEAR, SHEAR, COUNT];

// Fields 1 to 18 of an M line.
const MEMBER: [Range; CASE_AT] = [
    NUMBER, LENGTH, LENGTH, AREA, CONCRETE, CONCRETE, STEEL, LENGTH, LENGTH, SPACING, LENGTH,
    HOOPS, MARK, MARK, MARK, FACTOR, DAMAGE, FORCE,
];

// The fields of a load case: 19 to 26 of an M line of the old form, 2 to 9 of a D line.
const CASE: [Range; CASE_FIELDS - 1] = [
    FORCE, DEMAND, CAPACITY, DEMAND, CAPACITY, DEMAND, DEMAND, DEMAND,
];

// The last field of an M line: detailed to annex E.
const ANNEX_E: [Range; 1] = [MARK];

// Field j of some, counted from 0, may hold v; none past them.
fn field_allows(ranges: &[Range], j: usize, v: u64) -> bool
    ensures { result ≡ allows (get_or (rows ranges.now) j never) v }
{
    match ranges.get(j) {
        Some(range) => range.allows(v),
        None => false,
    }
}

// Field j of a B line, of a building of so many storeys.
fn header_allows(j: usize, v: u64, storeys: u64) -> bool
    ensures { result ≡ allows (get_or (header_ranges storeys) j never) v }
{
    match j {
        0 => LEVELS.contains(&v),
        5 => (1..=storeys).contains(&v),
        _ => field_allows(&HEADER, j - 1, v),
    }
}

// Field j of an M line of the old form.
fn member_allows(j: usize, v: u64) -> bool
    ensures { result ≡ allows (get_or (ranges M 0) j never) v }
{
    if j < CASE_AT {
        return field_allows(&MEMBER, j, v);
    }
    if j < MEMBER_FIELDS - 1 {
        return field_allows(&CASE, j - CASE_AT, v);
    }
    field_allows(&ANNEX_E, j - (MEMBER_FIELDS - 1), v)
}

// Field j of an M line of the form of four cases.
fn member_cases_allows(j: usize, v: u64) -> bool
    ensures { result ≡ allows (get_or (ranges M4 0) j never) v }
{
    if j < CASE_AT {
        return field_allows(&MEMBER, j, v);
    }
    field_allows(&ANNEX_E, j - (MEMBER_CASES_FIELDS - 1), v)
}

// Field j of a D line.
fn case_allows(j: usize, v: u64) -> bool
    ensures { result ≡ allows (get_or (ranges D 0) j never) v }
{
    if j == 0 {
        return CASE_NUMBER.allows(v);
    }
    field_allows(&CASE, j - 1, v)
}

// Field j of a line, counted from 0, may hold v; `storeys` is the third field of a B line.
pub fn range_allows(kind: Kind, j: usize, v: u64, storeys: u64) -> bool
    ensures { result ≡ allows (get_or (ranges kind storeys) j never) v }
{
    match kind {
        Kind::B => header_allows(j, v, storeys),
        Kind::S => field_allows(&STOREY, j, v),
        Kind::M => member_allows(j, v),
        Kind::S4 => field_allows(&STOREY_CASES, j, v),
        Kind::M4 => member_cases_allows(j, v),
        Kind::D => case_allows(j, v),
    }
}

// Every field of a line is in its range. A number that is not there counts as 0, and one after the line's fields does not count.
pub fn line_in_ranges(kind: Kind, vs: &[u64]) -> bool
    ensures { result ≡ line_in_range kind vs.now }
{
    let storeys = value_or(vs, 2, 0);
    (0..kind.field_count()).all(|j| range_allows(kind, j, value_or(vs, j, 0), storeys))
}

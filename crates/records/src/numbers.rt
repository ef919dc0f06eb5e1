// The record of some numbers in the order of its line's fields, and what a record holds in a load case.
ghost use Rattle.std.specs.Prelude.{◌≡◌, ◌≤◌, ℕ, ◌∷◌, get_or};
ghost use Rattle.records.specs.Forms.{form_number};
ghost use Rattle.records.specs.Records.{header_values, storey_values, member_values, case_values, member_case_values, storey_kind, member_kind, fields, header_by, storey_by, case_by, member_by, old_member, no_case, case_count, shear_of, with_case, in_case};

use crate::form::Form;
use crate::{
    CASE_AT, CASE_FIELDS, CASES, FIELDS_MOST, HEADER_FIELDS, Header, Kind, LoadCase,
    MEMBER_CASES_FIELDS, MEMBER_FIELDS, Member, MemberCase, STOREY_CASES_FIELDS, STOREY_FIELDS,
    Storey, ZERO_FORCE,
};
use std::array;

// Number j of some, counted from 0; `missing` past them.
pub fn value_or(values: &[u64], j: usize, missing: u64) -> u64
    ensures { result ≡ get_or values.now j missing }
{
    values.get(j).copied().unwrap_or(missing)
}

impl Kind {
    // How many fields a line has.
    pub fn field_count(self) -> usize
        ensures { result ≡ fields self }
    {
        match self {
            Kind::B => HEADER_FIELDS,
            Kind::S => STOREY_FIELDS,
            Kind::M => MEMBER_FIELDS,
            Kind::S4 => STOREY_CASES_FIELDS,
            Kind::M4 => MEMBER_CASES_FIELDS,
            Kind::D => CASE_FIELDS,
        }
    }
}

impl Header {
    // Of a B line's numbers. The form is a number, which may be that of no form.
    pub fn of(form: u64, vs: &[u64; FIELDS_MOST]) -> Header
        ensures { result ≡ header_by form (λ (j : ℕ). get_or vs.now j 0) }
    {
        Header {
            knowledge: vs[0],
            height: vs[1],
            storeys: vs[2],
            tilt1: vs[3],
            tilt2: vs[4],
            count: vs[5],
            form,
        }
    }

    // The numbers of its B line.
    pub fn values(&self) -> [u64; HEADER_FIELDS]
        ensures { result ≡ header_values self.now }
    {
        [
            self.knowledge,
            self.height,
            self.storeys,
            self.tilt1,
            self.tilt2,
            self.count,
        ]
    }
}

impl Storey {
    // Of an S line's numbers.
    pub fn of(form: Form, vs: &[u64; FIELDS_MOST]) -> Storey
        ensures { result ≡ storey_by (form_number form) (λ (j : ℕ). get_or vs.now j 0) }
    {
        match form {
            Form::Old => Storey {
                number: vs[0],
                shears: [vs[1], 0, 0, 0],
                count: vs[2],
            },
            Form::FourCases => Storey {
                number: vs[0],
                shears: [vs[1], vs[2], vs[3], vs[4]],
                count: vs[5],
            },
        }
    }

    // The numbers of its S line in the old form, and in the form of four cases.
    pub fn values(&self) -> [u64; STOREY_FIELDS]
        ensures { result ≡ storey_values 1 self.now }
    {
        [self.number, self.shears[0], self.count]
    }

    pub fn values_in_cases(&self) -> [u64; STOREY_CASES_FIELDS]
        ensures { result ≡ storey_values 2 self.now }
    {
        let [shear1, shear2, shear3, shear4] = self.shears;
        [self.number, shear1, shear2, shear3, shear4, self.count]
    }

    // How many members it has.
    pub fn member_count(&self) -> usize
        ensures { result ≡ self.now.count }
    {
        self.count as usize
    }

    // The storey shear of case c, counted from 0; past the cases 0.
    pub fn shear(&self, c: usize) -> u64
        ensures { result ≡ shear_of c self.now }
    {
        self.shears.get(c).copied().unwrap_or(0)
    }
}

// Of its numbers, in the order of a D line's after that of the case.
impl From<[u64; CASE_FIELDS - 1]> for LoadCase {
    ghost from_gives = { λ numbers case. case ≡ case_by (λ (j : ℕ). get_or numbers j 0) 0 };

    fn from(numbers: [u64; CASE_FIELDS - 1]) -> LoadCase {
        let [nk, me, mp, ve, vr, shear, rotation, drift] = numbers;
        LoadCase {
            nk,
            me,
            mp,
            ve,
            vr,
            shear,
            rotation,
            drift,
        }
    }
}

impl LoadCase {
    // A case that the form lacks.
    pub fn none() -> LoadCase
        ensures { result ≡ no_case }
    {
        LoadCase {
            nk: ZERO_FORCE,
            me: 0,
            mp: 0,
            ve: 0,
            vr: 0,
            shear: 0,
            rotation: 0,
            drift: 0,
        }
    }

    // Of the numbers of a line from the first on.
    fn from_number(vs: &[u64; FIELDS_MOST], first: usize) -> LoadCase
        requires { first ≤ 18 }
        ensures { result ≡ case_by (λ (j : ℕ). get_or vs.now j 0) first }
    {
        LoadCase::from(array::from_fn(|i| vs[first + i]))
    }

    // Of a D line's numbers, after that of the case.
    pub fn of(vs: &[u64; FIELDS_MOST]) -> LoadCase
        ensures { result ≡ case_by (λ (j : ℕ). get_or vs.now j 0) 1 }
    {
        LoadCase::from_number(vs, 1)
    }

    // The numbers of its D line, of which the first is that of the case.
    pub fn values(&self, number: u64) -> [u64; CASE_FIELDS]
        ensures { result ≡ number ∷ case_values self.now }
    {
        [
            number,
            self.nk,
            self.me,
            self.mp,
            self.ve,
            self.vr,
            self.shear,
            self.rotation,
            self.drift,
        ]
    }
}

impl Member {
    // Of the first 18 numbers of an M line, with its last field and its cases.
    pub fn with_cases(vs: &[u64; FIELDS_MOST], annex_e: u64, cases: [LoadCase; CASES]) -> Member
        ensures { result ≡ member_by (λ (j : ℕ). get_or vs.now j 0) annex_e cases }
    {
        Member {
            number: vs[0],
            long: vs[1],
            short: vs[2],
            area: vs[3],
            fcm: vs[4],
            fctm: vs[5],
            fyw: vs[6],
            depth: vs[7],
            height: vs[8],
            spacing: vs[9],
            core: vs[10],
            hoops: vs[11],
            hooks: vs[12],
            zone: vs[13],
            strengthened: vs[14],
            factor: vs[15],
            damage: vs[16],
            nd: vs[17],
            annex_e,
            cases,
        }
    }

    // Of an M line's numbers in the old form, whose fields 19 to 26 are its one case.
    pub fn of(vs: &[u64; FIELDS_MOST]) -> Member
        ensures { result ≡ old_member (λ (j : ℕ). get_or vs.now j 0) }
    {
        let case = LoadCase::from_number(vs, CASE_AT);
        let none = LoadCase::none();
        Member::with_cases(vs, vs[MEMBER_FIELDS - 1], [case, none, none, none])
    }

    // The numbers of its M line in the form of four cases.
    pub fn values(&self) -> [u64; MEMBER_CASES_FIELDS]
        ensures { result ≡ member_values self.now }
    {
        [
            self.number,
            self.long,
            self.short,
            self.area,
            self.fcm,
            self.fctm,
            self.fyw,
            self.depth,
            self.height,
            self.spacing,
            self.core,
            self.hoops,
            self.hooks,
            self.zone,
            self.strengthened,
            self.factor,
            self.damage,
            self.nd,
            self.annex_e,
        ]
    }

    pub fn with_case(&self, case: LoadCase) -> MemberCase
        ensures { result ≡ with_case self.now case }
    {
        MemberCase {
            number: self.number,
            long: self.long,
            short: self.short,
            area: self.area,
            fcm: self.fcm,
            fctm: self.fctm,
            fyw: self.fyw,
            depth: self.depth,
            height: self.height,
            spacing: self.spacing,
            core: self.core,
            hoops: self.hoops,
            hooks: self.hooks,
            zone: self.zone,
            strengthened: self.strengthened,
            factor: self.factor,
            damage: self.damage,
            nd: self.nd,
            annex_e: self.annex_e,
            case,
        }
    }

    // The member in case c, counted from 0; past the cases in one that holds 0.
    pub fn in_case(&self, c: usize) -> MemberCase
        ensures { result ≡ in_case c self.now }
    {
        self.with_case(self.cases.get(c).copied().unwrap_or(LoadCase::none()))
    }
}

impl MemberCase {
    // The numbers of its M line in the old form.
    pub fn values(&self) -> [u64; MEMBER_FIELDS]
        ensures { result ≡ member_case_values self.now }
    {
        let (m, c) = (self, &self.case);
        [
            m.number,
            m.long,
            m.short,
            m.area,
            m.fcm,
            m.fctm,
            m.fyw,
            m.depth,
            m.height,
            m.spacing,
            m.core,
            m.hoops,
            m.hooks,
            m.zone,
            m.strengthened,
            m.factor,
            m.damage,
            m.nd,
            c.nk,
            c.me,
            c.mp,
            c.ve,
            c.vr,
            c.shear,
            c.rotation,
            c.drift,
            m.annex_e,
        ]
    }
}

// The records of a survey, shared by every layer, and what makes one good. Every field is a number, in the unit that document 01 gives it.

#![tactic(auto)]

pub mod by_case;
pub mod by_form_number;
pub mod form;
pub mod numbers;
pub mod refusal;

// What stands for a force of 0 in N_D and N_K.
pub const ZERO_FORCE: u64 = 20_000_000;

// How many load cases a record holds.
pub const CASES: usize = 4;

// How many fields a line has. The numbers of a line stand in an array that holds those of any.
pub const HEADER_FIELDS: usize = 6;

pub const STOREY_FIELDS: usize = 3;

pub const MEMBER_FIELDS: usize = 27;

// In the form of four cases: S, M and D.
pub const STOREY_CASES_FIELDS: usize = 6;

pub const MEMBER_CASES_FIELDS: usize = 19;

pub const CASE_FIELDS: usize = 9;

pub const FIELDS_MOST: usize = MEMBER_FIELDS;

// Where a load case begins in an M line of the old form, counted from 0.
pub const CASE_AT: usize = 18;

// The B line.
#[repr(C)]
#[derive(Clone, Copy)]
pub struct Header {
    // knowledge level k, hundredths
    pub knowledge: u64,
    // H_T, mm
    pub height: u64,
    // n_s
    pub storeys: u64,
    // the two tilts, microradians
    pub tilt1: u64,
    pub tilt2: u64,
    // how many S lines follow
    pub count: u64,
    // the form of the survey: 1 old, 2 four load cases
    pub form: u64,
}

// The S line.
#[repr(C)]
#[derive(Clone, Copy)]
pub struct Storey {
    pub number: u64,
    // storey shear of each load case, 0.1 kN; 0 in the cases that the form lacks
    pub shears: [u64; CASES],
    // how many M lines follow
    pub count: u64,
}

// The M line: a column or a wall. Forces are in 0.1 kN, moments in 0.1 kNm, lengths in mm.
#[repr(C)]
#[derive(Clone, Copy)]
pub struct Member {
    pub number: u64,
    pub long: u64,
    pub short: u64,
    // A_c, mm²
    pub area: u64,
    // f_cm, 0.1 MPa
    pub fcm: u64,
    // f_ctm, 0.01 MPa
    pub fctm: u64,
    // f_yw, 0.1 MPa
    pub fyw: u64,
    pub depth: u64,
    // H_w, height of the wall
    pub height: u64,
    // s, hoop spacing
    pub spacing: u64,
    // b_k, core width
    pub core: u64,
    // A_sh, hoop area, mm²
    pub hoops: u64,
    // marks, 0 or 1
    pub hooks: u64,
    pub zone: u64,
    pub strengthened: u64,
    // reduction factor of annex I, hundredths
    pub factor: u64,
    // worst damage kind, 0 to 4
    pub damage: u64,
    // N_D, counted from -20,000,000
    pub nd: u64,
    // detailed to annex E, 0 or 1
    pub annex_e: u64,
    // the cases that the form lacks hold 0
    pub cases: [LoadCase; CASES],
}

// What one load case brings to a member: fields 19 to 26 of an M line in the old form, a D line in the form of four cases.
#[repr(C)]
#[derive(Clone, Copy, PartialEq)]
pub struct LoadCase {
    // N_K, counted from -20,000,000
    pub nk: u64,
    // M_e and M_p, moment demand and capacity
    pub me: u64,
    pub mp: u64,
    // V_e and V_r, shear demand and capacity
    pub ve: u64,
    pub vr: u64,
    // V, shear from modal analysis
    pub shear: u64,
    // microradians
    pub rotation: u64,
    // millionths
    pub drift: u64,
}

// A member in one load case: what is judged. Its fields are those of the member, with the case.
#[derive(Clone, Copy)]
pub struct MemberCase {
    pub number: u64,
    pub long: u64,
    pub short: u64,
    pub area: u64,
    pub fcm: u64,
    pub fctm: u64,
    pub fyw: u64,
    pub depth: u64,
    pub height: u64,
    pub spacing: u64,
    pub core: u64,
    pub hoops: u64,
    pub hooks: u64,
    pub zone: u64,
    pub strengthened: u64,
    pub factor: u64,
    pub damage: u64,
    pub nd: u64,
    pub annex_e: u64,
    pub case: LoadCase,
}

// The kind of a line: B; S and M of the old form; S, M and D of the form of four load cases.
#[derive(Clone, Copy)]
pub enum Kind {
    B,
    S,
    M,
    S4,
    M4,
    D,
}

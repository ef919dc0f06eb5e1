// The totals of a storey's members in one load case, and what the storey is found to be by them (document 01, "Storey and building"). One member at a time, for whoever goes over the members
// in a loop of its own.

#![tactic(auto)]

pub mod adding;
pub mod finding;

use members::limits::Fraction;

// The most members of a storey.
const MEMBERS_MOST: u64 = 200;

// The most that the field of a shear holds.
const SHEAR_MOST: u64 = 9_999_999;

// What no total of so many members passes.
const TOTAL_MOST: u64 = 2_000_000_000;

// The totals over some members of a storey.
#[derive(Clone, Copy)]
pub struct Tally {
    // c
    pub members: u64,
    // Σ
    pub axial_total: u64,
    // P
    pub over_shear: u64,
    // some member is over
    pub some: bool,
    // 20, 28, 35 or 140 for each damaged member
    pub damage: u64,
}

// What a storey is found to be in one load case.
#[derive(Clone, Copy)]
pub struct StoreyFinding {
    // Σ, the total of n_D
    pub axial_total: u64,
    // c, how many members it has
    pub members: u64,
    // P, the total of V over the members that are over
    pub over_shear: u64,
    // W, the storey shear
    pub shear: u64,
    pub risky: bool,
    // its walls carry at least 0.40 of the storey shear
    pub walls_suffice: bool,
    // which rule makes it Risky: P / W above the allowed share; a member over while Σ is above the second end of the share; damage
    pub by_share: bool,
    pub by_one_over: bool,
    pub by_damage: bool,
    // the allowed share is the quotient of these two
    pub allowed: Fraction,
}

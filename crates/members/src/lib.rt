// Judging a member: its ratios, its class, the limits of the class, and whether it is over them.
#![tactic(auto)]

pub mod class;
pub mod finding;
pub mod good_case;
pub mod knowledge;
pub mod limits;
pub mod tables;
pub mod units;

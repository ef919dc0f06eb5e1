// Writing the report: what the call answers (document 01, "The printed sheet").

#![tactic(auto)]

mod printed;
pub mod refusal_line;
pub mod sheet;

// How many bytes a line takes: its tag, its fields of 12 columns and LF. `M` has 7 fields, `S` 6, in four cases one more each; `B` has 2.
pub const MEMBER_LINE_SIZE: usize = 2 + 12 * 7;

pub const STOREY_LINE_SIZE: usize = 2 + 12 * 6;

pub const MEMBER_CASE_LINE_SIZE: usize = 2 + 12 * 8;

pub const STOREY_CASE_LINE_SIZE: usize = 2 + 12 * 7;

pub const BUILDING_LINE_SIZE: usize = 2 + 12 * 2;

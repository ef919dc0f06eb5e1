// The format of a survey file: numbers in columns, and lines of fields (document 01, "The survey record").
#![tactic(auto)]

pub mod cursor;
mod line_fields;
pub mod lines;
pub mod spelling;

// Reading a survey: the call that reads a file into lent rows.
#![tactic(auto)]

mod line;
mod place;
pub mod rows;
pub mod survey;

// Putting text and numbers in columns into lent bytes.
#![tactic(auto)]

pub mod writer;

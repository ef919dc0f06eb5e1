// Writing a survey as a file (document 02, N1).

#![tactic(auto)]

pub mod file;
mod lines;

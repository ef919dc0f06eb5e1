// The site coefficients and the spectrum (document 02, N8), in hundredths, thousandths and hundred-thousandths as docs/SPECTRUM.md has them.
#![tactic(auto)]

pub mod site;
pub mod spectrum;
mod table;
mod taken;

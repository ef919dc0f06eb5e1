// The calls on a site and on a spectrum.
ghost use Rattle.std.specs.Prelude.{◌≡◌};
ghost use Rattle.hazard.specs.Site.{motion, site_returned};
ghost use Rattle.hazard.specs.Spectrum.{spectrum_returned};
ghost use Rattle.exports.specs.Calls.{given, out_after_call};
ghost use Rattle.exports.specs.SpectrumCalls.{site_count, spectrum_count};

use crate::SHORT;
use answers::put_answer;
use hazard::site::{Motion, site_coefficients};
use hazard::spectrum::spectrum;

const SITE_COUNT: usize = 4;

const SPECTRUM_COUNT: usize = 1;

// The coefficients of a site: its class and its map coefficients S_S and S_1.
#[unsafe(no_mangle)]
pub extern "C" fn llunareth_site_coefficients(class: u64, ss: u64, s1: u64, out: &mut [u64]) -> u64
    ensures value { result ≡ given site_count (site_returned class ss s1) out.old }
    ensures out_after { out.new ≡ out_after_call site_count (site_returned class ss s1) out.old }
{
    if out.len() < SITE_COUNT {
        return SHORT;
    }
    put_answer(out, site_coefficients(class, ss, s1))
}

// The spectrum: the site's class, the building's use, S_S and S_1 of DD-1, then of DD-2, and the period.
#[unsafe(no_mangle)]
pub extern "C" fn llunareth_spectrum(
    class: u64,
    usage: u64,
    ss1: u64,
    s11: u64,
    ss2: u64,
    s12: u64,
    period: u64,
    out: &mut [u64],
) -> u64
    ensures value { result ≡ given spectrum_count (spectrum_returned class usage (motion ss1 s11) (motion ss2 s12) period) out.old }
    ensures out_after { out.new ≡ out_after_call spectrum_count (spectrum_returned class usage (motion ss1 s11) (motion ss2 s12) period) out.old }
{
    if out.len() < SPECTRUM_COUNT {
        return SHORT;
    }
    let dd1 = Motion { ss: ss1, s1: s11 };
    let dd2 = Motion { ss: ss2, s1: s12 };
    put_answer(out, spectrum(class, usage, dd1, dd2, period))
}

// The spectrum of a site (document 001, equations 2.3 and 2.4, table 2.1): exact until the one rounding at the end.
ghost use Rattle.std.specs.Prelude.{◌≡◌, ◌≤◌};
ghost use Rattle.records.specs.Refusals.{numbered};
ghost use Rattle.hazard.specs.Codes.{Used, class_number, usage_number};
ghost use Rattle.hazard.specs.Site.{site_of};
ghost use Rattle.hazard.specs.Spectrum.{level, spectral, level_of, spectrum_at, spectrum_answer, returned_spectrum, spectrum_returned};
ghost use Rattle.hazard.specs.Sizes.{SizedFraction, SizedLevel, SizedSite};

use crate::site::{Motion, Site, SiteClass};
use crate::taken::{MapMotion, Period};
use members::limits::Fraction;
use records::refusal::Refusal;

// T_L, in milliseconds.
const T_L: u64 = 6_000;

// The level of ground motion that decides: S_DS and S_D1 in hundred-thousandths, the factor on their spectrum in tenths.
#[derive(Clone, Copy)]
pub struct Level {
    pub sds: u64,
    pub sd1: u64,
    pub tenths: u64,
}

// A level within the sizes that are computed with.
#[derive(Drop)]
struct DecidingLevel {
    pub level: Level,
    ghost sized: { SizedLevel level },
}

// A use of table 2.1 by its code: those of DD-1 and those of DD-2.
#[derive(Clone, Copy)]
enum Usage {
    Dd1 = 1,
    Dd2,
}

impl TryFrom<u64> for Usage {
    type Error = Refusal;

    ghost try_from_gives = { Used };

    fn try_from(code: u64) -> Result<Usage, Refusal> {
        match code {
            1 => Ok(Usage::Dd1),
            2 => Ok(Usage::Dd2),
            _ => Err(Refusal::OutOfRange),
        }
    }
}

impl Usage {
    // The level that a use takes.
    #[tactic(auto, unfolding(crate::specs::Spectrum::level_of))]
    fn level(self, class: SiteClass, dd1: MapMotion, dd2: MapMotion) -> DecidingLevel
        ensures { result.level ≡ level_of (usage_number self) (site_of (class_number class) dd1.motion) (site_of (class_number class) dd2.motion) }
    {
        let dd1 = class.site(dd1);
        let dd2 = class.site(dd2);
        match self {
            Usage::Dd1 if 15 * dd2.sds < 10 * dd1.sds => DecidingLevel::new(&dd2, 15),
            Usage::Dd1 => DecidingLevel::new(&dd1, 10),
            Usage::Dd2 => DecidingLevel::new(&dd2, 9),
        }
    }
}

impl DecidingLevel {
    // The level of a site's coefficients.
    fn new(site: &Site, tenths: u64) -> DecidingLevel
        requires sized { SizedSite site.now }
        requires within { tenths ≤ 15 }
        ensures { result.level ≡ level site.now tenths }
    {
        let level = Level {
            sds: site.sds,
            sd1: site.sd1,
            tenths,
        };
        DecidingLevel { level }
    }

    // The line of equation 2.3 that decides at a period.
    #[tactic(auto, using(crate::proofs::Lines::lines))]
    fn spectral(&self, period: Period) -> Fraction
        ensures value { result ≡ spectral self.now.level.sds self.now.level.sd1 period.milliseconds }
        ensures sized { SizedFraction result }
    {
        let Level { sds, sd1, .. } = self.level;
        let t = period.milliseconds;
        if t * sds <= 200 * sd1 {
            Fraction {
                num: sds * (400 * sd1 + 3 * (t * sds)),
                den: 1_000 * sd1,
            }
        } else if t * sds <= 1_000 * sd1 {
            Fraction { num: sds, den: 1 }
        } else if t <= T_L {
            Fraction {
                num: 1_000 * sd1,
                den: t,
            }
        } else {
            Fraction {
                num: 1_000 * sd1 * T_L,
                den: t * t,
            }
        }
    }

    // The spectrum at a period, rounded up.
    #[tactic(auto, using(crate::proofs::Rounding::rounded), unfolding(crate::specs::Spectrum::spectrum_at))]
    fn spectrum_at(&self, period: Period) -> u64
        ensures { result ≡ spectrum_at self.now.level period.milliseconds }
    {
        let f = self.spectral(period);
        (f.num * self.level.tenths).div_ceil(f.den * 10)
    }
}

// The call on a spectrum: the site's class, the building's use, the map coefficients of DD-1 and of DD-2, and a period in milliseconds.
#[tactic(auto, using(crate::proofs::Accepted::codes), unfolding(crate::specs::Spectrum::spectrum_answer, crate::specs::Refusals::spectrum_fault))]
pub fn spectrum(
    class: u64,
    usage: u64,
    dd1: Motion,
    dd2: Motion,
    period: u64,
) -> Result<u64, Refusal>
    ensures answer { numbered result ≡ spectrum_answer class usage dd1 dd2 period }
    ensures returned { returned_spectrum (numbered result) ≡ spectrum_returned class usage dd1 dd2 period }
{
    let dd1 = MapMotion::try_from(dd1)?;
    let dd2 = MapMotion::try_from(dd2)?;
    let period = Period::try_from(period)?;
    let class = SiteClass::try_from(class)?;
    let usage = Usage::try_from(usage)?;
    let level = usage.level(class, dd1, dd2);
    Ok(level.spectrum_at(period))
}

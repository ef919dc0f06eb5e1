// The coefficients of a site: F_S and F_1 out of the table, S_DS and S_D1 by equation 2.2 of document 001.
ghost use Rattle.std.specs.Prelude.{◌≡◌, ◌<◌};
ghost use Rattle.records.specs.Refusals.{numbered};
ghost use Rattle.hazard.specs.Codes.{Classed, class_number};
ghost use Rattle.hazard.specs.Site.{motion, row_of, site_of, site_answer, returned_site, site_returned};
ghost use Rattle.hazard.specs.Sizes.{SizedSite};

use crate::table::{ONE_SECOND, SHORT_PERIOD};
use crate::taken::MapMotion;
use records::refusal::Refusal;

// The map coefficients of a level of ground motion, in hundredths.
#[derive(Clone, Copy)]
pub struct Motion {
    pub ss: u64,
    pub s1: u64,
}

// F_S and F_1 in thousandths, S_DS and S_D1 in hundred-thousandths.
#[derive(Clone, Copy)]
pub struct Site {
    pub fs: u64,
    pub f1: u64,
    pub sds: u64,
    pub sd1: u64,
}

// A site class by its code.
#[derive(Clone, Copy)]
pub(crate) enum SiteClass {
    Za = 1,
    Zb,
    Zc,
    Zd,
    Ze,
    Zf,
}

impl TryFrom<u64> for SiteClass {
    type Error = Refusal;

    ghost try_from_gives = { Classed };

    fn try_from(code: u64) -> Result<SiteClass, Refusal> {
        match code {
            1 => Ok(SiteClass::Za),
            2 => Ok(SiteClass::Zb),
            3 => Ok(SiteClass::Zc),
            4 => Ok(SiteClass::Zd),
            5 => Ok(SiteClass::Ze),
            6 => Ok(SiteClass::Zf),
            _ => Err(Refusal::OutOfRange),
        }
    }
}

impl SiteClass {
    // The row of the tables, counted from 0: that of ZE for ZF.
    pub(crate) fn row(self) -> u64
        ensures value { result ≡ row_of (class_number self) }
        ensures below { result < 5 }
    {
        match self {
            SiteClass::Za => 0,
            SiteClass::Zb => 1,
            SiteClass::Zc => 2,
            SiteClass::Zd => 3,
            SiteClass::Ze | SiteClass::Zf => 4,
        }
    }

    // The coefficients at a level of ground motion.
    pub(crate) fn site(self, motion: MapMotion) -> Site
        ensures value { result ≡ site_of (class_number self) motion.motion }
        ensures sized { SizedSite result }
    {
        let Motion { ss, s1 } = motion.motion;
        let fs = SHORT_PERIOD.factor(self, ss);
        let f1 = ONE_SECOND.factor(self, s1);
        Site {
            fs,
            f1,
            sds: ss * fs,
            sd1: s1 * f1,
        }
    }
}

// The call on a site: its class, 1 to 6 for ZA to ZF, and the map coefficients of one level of ground motion.
#[tactic(auto, using(crate::proofs::Accepted::codes), unfolding(crate::specs::Site::site_answer, crate::specs::Refusals::site_fault))]
pub fn site_coefficients(class: u64, ss: u64, s1: u64) -> Result<Site, Refusal>
    ensures answer { numbered result ≡ site_answer class (motion ss s1) }
    ensures returned { returned_site (numbered result) ≡ site_returned class ss s1 }
{
    let motion = MapMotion::try_from(Motion { ss, s1 })?;
    let class = SiteClass::try_from(class)?;
    Ok(class.site(motion))
}

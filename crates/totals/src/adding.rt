// One member added to the totals.
ghost use Rattle.std.specs.Prelude.{◌≡◌};
ghost use Rattle.records.specs.Records.{in_case};
ghost use Rattle.totals.specs.Totals.{weight_of, no_tally, takes_one, with_finding, added_wall};

use crate::{MEMBERS_MOST, SHEAR_MOST, TOTAL_MOST, Tally};
use members::class::is_wall;
use members::finding::Finding;
use members::units::Ratio;
use records::{Member, MemberCase};

// The walls' V so far, with one member more in case c. Past its most nothing is added.
pub fn add_wall(t: u64, m: &Member, c: usize) -> u64
    ensures { result ≡ added_wall t (in_case c m.now) }
{
    let one = m.in_case(c);
    if t <= TOTAL_MOST && one.case.shear <= SHEAR_MOST && is_wall(&one) {
        t + one.case.shear
    } else {
        t
    }
}

// What a member with damage of a kind adds.
fn weight(kind: u64) -> u64
    ensures { result ≡ weight_of kind }
{
    match kind {
        1 => 20,
        2 => 28,
        3 => 35,
        4 => 140,
        _ => 0,
    }
}

impl Tally {
    // The totals of no member.
    pub fn none() -> Tally
        ensures { result ≡ no_tally }
    {
        Tally {
            members: 0,
            axial_total: 0,
            over_shear: 0,
            some: false,
            damage: 0,
        }
    }

    // The totals take one member more: there are fewer than 200, and no number is past its most.
    fn takes_one(&self, nd: Ratio, shear: u64) -> bool
        ensures { result ≡ takes_one self.now nd.0 shear }
    {
        self.members < MEMBERS_MOST
            && self.axial_total <= TOTAL_MOST
            && self.over_shear <= TOTAL_MOST
            && self.damage <= TOTAL_MOST
            && nd.0 <= Ratio::CAP
            && shear <= SHEAR_MOST
    }

    // The totals with the finding of a member; a 201st changes nothing.
    #[tactic(auto, unfolding(crate::specs::Totals::with_finding))]
    pub fn with_finding(self, f: &Finding, m: &MemberCase) -> Tally
        ensures { result ≡ with_finding self f.now m.now }
    {
        if !self.takes_one(f.nd, m.case.shear) {
            return self;
        }
        let over_shear = if f.over { m.case.shear } else { 0 };
        Tally {
            members: self.members + 1,
            axial_total: self.axial_total + f.nd.0,
            over_shear: self.over_shear + over_shear,
            some: self.some || f.over,
            damage: self.damage + weight(m.damage),
        }
    }
}

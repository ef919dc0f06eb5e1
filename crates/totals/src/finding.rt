// A storey's finding from the totals of its members.
ghost use Rattle.std.specs.Prelude.{◌≡◌, ◌*◌, ◌≤◌, ltb};
ghost use Rattle.members.specs.Tables.{published_share};
ghost use Rattle.totals.specs.Share.{allowed_share};
ghost use Rattle.totals.specs.Totals.{members_most, total_most, shear_most, one_over, past_most, within_most, beyond_most, found_by, met_by};

use crate::{MEMBERS_MOST, SHEAR_MOST, StoreyFinding, TOTAL_MOST, Tally};
use members::limits::Fraction;
use members::tables::Share;

// The walls carry at least 0.40 of the storey shear; never of one past its most.
pub fn meets(shear: u64, walls: u64) -> bool
    ensures { result ≡ met_by shear walls }
{
    shear <= SHEAR_MOST && 2 * shear <= walls.saturating_mul(5)
}

// The allowed share in hundredths, of a size that the test of a storey can multiply.
#[derive(Clone, Copy)]
struct AllowedShare {
    hundredths: Fraction,
    ghost num_within: { hundredths.num ≤ 8_000_000_000 },
    ghost den_within: { hundredths.den ≤ 40_000_000 },
}

// The storey shear and the totals of the members in one load case, of which no number is past its most.
#[derive(Clone, Copy)]
struct BoundedTotals {
    shear: u64,
    tally: Tally,
    ghost shear_within: { shear ≤ shear_most },
    ghost members_within: { tally.members ≤ members_most },
    ghost over_shear_within: { tally.over_shear ≤ total_most },
}

impl BoundedTotals {
    // The published share at the axial ratios of the members: that of the first row up to its place, that of the second past its place, linear between.
    // The line stands in members too (`segment` of `Row`), with a `requires` on the size of its rows, which no public function has.
    #[tactic(auto, unfolding(crate::specs::Share::allowed_share, members::specs::Limits::interp))]
    fn allowed_share(&self) -> AllowedShare
        ensures { result.hundredths ≡ allowed_share published_share self.now.tally.axial_total self.now.tally.members }
    {
        let Share { first, second } = Share::published();
        let x = self.tally.axial_total;
        let from = first.at * self.tally.members;
        let to = second.at * self.tally.members;
        let hundredths = if x <= from {
            Fraction {
                num: first.limit,
                den: 1,
            }
        } else if to < x {
            Fraction {
                num: second.limit,
                den: 1,
            }
        } else {
            Fraction {
                num: first.limit * (to - x) + second.limit * (x - from),
                den: to - from,
            }
        };
        AllowedShare { hundredths }
    }

    // P / W exceeds the allowed share.
    fn exceeds(&self, allowed: &AllowedShare) -> bool
        ensures { let share = allowed.now.hundredths in result ≡ ltb (self.now.shear * share.num) (100 * self.now.tally.over_shear * share.den) }
    {
        let share = &allowed.hundredths;
        self.shear * share.num < 100 * self.tally.over_shear * share.den
    }

    // The axial ratios of the members are above the second row of the published share, and some member is over.
    fn one_over(&self) -> bool
        ensures { result ≡ one_over published_share self.now.tally }
    {
        let t = &self.tally;
        Share::published().second.at * t.members < t.axial_total && t.some
    }

    // The finding by the published share.
    #[tactic(auto, unfolding(crate::specs::Share::exceeds_share))]
    fn found(&self, met: bool) -> StoreyFinding
        ensures { result ≡ within_most published_share self.now.shear met self.now.tally }
    {
        let t = &self.tally;
        let allowed = self.allowed_share();
        let by_share = self.exceeds(&allowed);
        let by_one_over = self.one_over();
        let by_damage = 7 * t.members <= t.damage;
        StoreyFinding {
            risky: by_share || by_one_over || by_damage,
            by_share,
            by_one_over,
            by_damage,
            allowed: Fraction {
                num: allowed.hundredths.num,
                den: 100 * allowed.hundredths.den,
            },
            ..StoreyFinding::beyond_most(self.shear, met, t)
        }
    }
}

impl Tally {
    // A number is past its most.
    fn past_most(&self, shear: u64) -> bool
        ensures { result ≡ past_most shear self.now }
    {
        MEMBERS_MOST < self.members || TOTAL_MOST < self.over_shear || SHEAR_MOST < shear
    }
}

impl StoreyFinding {
    // Where a number is past its most: Risky by no rule, and no share is allowed.
    fn beyond_most(shear: u64, met: bool, t: &Tally) -> StoreyFinding
        ensures { result ≡ beyond_most shear met t.now }
    {
        StoreyFinding {
            axial_total: t.axial_total,
            members: t.members,
            over_shear: t.over_shear,
            shear,
            risky: true,
            walls_suffice: met,
            by_share: false,
            by_one_over: false,
            by_damage: false,
            allowed: Fraction { num: 0, den: 1 },
        }
    }

    // In a case with this storey shear, from the totals of the members, by the published share. Where a number is past its most, it is Risky by no rule.
    #[tactic(auto, unfolding(crate::specs::Totals::found_by))]
    pub fn of(shear: u64, met: bool, t: &Tally) -> StoreyFinding
        ensures { result ≡ found_by shear met t.now }
    {
        if t.past_most(shear) {
            StoreyFinding::beyond_most(shear, met, t)
        } else {
            BoundedTotals { shear, tally: *t }.found(met)
        }
    }
}

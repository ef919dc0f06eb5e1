// A member in a load case that its check refuses nothing of, judged at the knowledge level of its survey: its class by exact tests, its ratios, its limits, and whether it is over (document 01, "Member").
ghost use Rattle.std.specs.Prelude.{◌≡◌, ◌≤◌, MatchResult};
ghost use Rattle.records.specs.Records.{member_case_fault};
ghost use Rattle.records.specs.Refusals.{refusal_number};
ghost use Rattle.records.specs.Valid.{Valid};
ghost use Rattle.members.specs.Class.{detailed, shear_below, column_class, wall_class, class_of};
ghost use Rattle.members.specs.Finding.{axial, moment_ratio, wall_stress, hoop_ratio, m_dropped_of, finding};
ghost use Rattle.members.specs.Assembly.{ratios};
ghost use Rattle.members.specs.Limits.{m_limit_at, rotation_limit_at};
ghost use Rattle.members.specs.Tables.{published};

use crate::class::{Class, is_wall};
use crate::finding::Finding;
use crate::knowledge::Knowledge;
use crate::limits::{Limits, PlacedTable, Ratios};
use crate::tables::LimitSet;
use crate::units::{HoopRatio, Microradians, Ratio};
use records::refusal::Refusal;
use records::{MemberCase, ZERO_FORCE};
use validity::check_member_case;

#[derive(Clone, Copy)]
pub struct GoodCase {
    pub case: MemberCase,
    pub level: Knowledge,
    ghost good: { member_case_fault case ≡ 0 },
    ghost sized: { Valid case },
}

impl GoodCase {
    // A member in a load case, checked, with the knowledge level of its survey.
    #[tactic(auto, using(records::proofs::Validity::valid))]
    pub fn new(level: Knowledge, case: MemberCase) -> Result<GoodCase, Refusal>
        ensures { MatchResult result (λ g. (g.level ≡ level) × (g.case ≡ case)) (λ e. refusal_number e ≡ member_case_fault case) }
    {
        check_member_case(&case)?;
        Ok(GoodCase { case, level })
    }

    #[tactic(auto, unfolding(crate::specs::Class::detailed))]
    fn is_detailed(&self) -> bool
        ensures { result ≡ detailed self.now.case }
    {
        let m = &self.case;
        m.spacing <= 100 && m.hooks == 1 && 6 * m.fcm * m.spacing * m.core <= 100 * m.hoops * m.fyw
    }

    // Shear demand below capacity, not rounded.
    fn shear_below(&self) -> bool
        ensures { result ≡ shear_below self.now.level.hundredths self.now.case.case.ve self.now.case.case.vr }
    {
        100 * self.case.case.ve < self.level.hundredths * self.case.case.vr
    }

    #[tactic(auto, unfolding(crate::specs::Class::column_class))]
    fn column_class(&self) -> Class
        ensures { result ≡ column_class (detailed self.now.case) self.now.level.hundredths self.now.case.case.ve self.now.case.case.vr }
    {
        let detailed = self.is_detailed();
        let demand = 1_000 * self.case.case.ve;
        let capacity = self.level.hundredths * self.case.case.vr;
        if demand <= 7 * capacity {
            if detailed {
                Class::ColumnA
            } else {
                Class::ColumnB
            }
        } else if detailed || demand <= 11 * capacity {
            Class::ColumnB
        } else {
            Class::ColumnC
        }
    }

    #[tactic(auto, unfolding(crate::specs::Class::wall_class))]
    fn wall_class(&self) -> Class
        ensures { result ≡ wall_class self.now.case.height self.now.case.long self.now.level.hundredths self.now.case.case.ve self.now.case.case.vr }
    {
        if 2 * self.case.long <= self.case.height && self.shear_below() {
            Class::WallA
        } else {
            Class::WallB
        }
    }

    // The class at its knowledge level.
    #[tactic(auto, unfolding(crate::specs::Class::class_of))]
    fn class(&self) -> Class
        ensures { result ≡ class_of self.now.level.hundredths self.now.case }
    {
        if is_wall(&self.case) {
            self.wall_class()
        } else {
            self.column_class()
        }
    }

    // n or n_D: of the compression of a force counted from -20,000,000, which is 0 under tension.
    #[tactic(auto, unfolding(crate::specs::Finding::axial))]
    fn axial(&self, force: u64) -> Ratio
        requires { force ≤ 29_999_999 }
        ensures { result ≡ axial force self.now.case.fcm self.now.case.area }
    {
        let compression = force.saturating_sub(ZERO_FORCE);
        Ratio::up(compression * 1_000, self.case.fcm * self.case.area)
    }

    #[tactic(auto, unfolding(crate::specs::Finding::moment))]
    fn moment_ratio(&self) -> Ratio
        ensures { result ≡ moment_ratio self.now.level.hundredths self.now.case }
    {
        let case = &self.case.case;
        Ratio::up(case.me * 100, self.level.hundredths * case.mp)
    }

    #[tactic(auto, unfolding(crate::specs::Finding::stress))]
    fn wall_stress(&self) -> Ratio
        ensures { result ≡ wall_stress self.now.case }
    {
        let m = &self.case;
        Ratio::up(m.case.ve * 10_000, m.short * m.depth * m.fctm)
    }

    #[tactic(auto, unfolding(crate::specs::Finding::hoops))]
    fn hoop_ratio(&self) -> HoopRatio
        ensures { result ≡ hoop_ratio self.now.case }
    {
        let m = &self.case;
        HoopRatio::down(m.hoops, m.spacing * m.core)
    }

    #[tactic(auto, unfolding(crate::specs::Assembly::ratios))]
    fn ratios(&self) -> Ratios
        ensures { result ≡ ratios self.now.case }
    {
        Ratios {
            n: self.axial(self.case.case.nk),
            v: self.wall_stress(),
            rho: self.hoop_ratio(),
        }
    }

    // The m test is dropped for a wall of little drift and shear in a storey that meets the 0.40 condition.
    #[tactic(auto, unfolding(crate::specs::Finding::m_dropped_of))]
    fn m_dropped(&self, met: bool) -> bool
        ensures { result ≡ m_dropped_of self.now.level.hundredths met self.now.case }
    {
        met && is_wall(&self.case) && self.case.case.drift < 7_500 && self.shear_below()
    }

    // The published limits of a class at ratios, by the marks of the member.
    #[tactic(auto, using(crate::proofs::Published::published_limits), unfolding(crate::specs::Limits::m_limit_at, crate::specs::Limits::rotation_limit_at))]
    fn limits(&self, class: Class, at: &Ratios) -> Limits
        ensures m_value { result.m ≡ m_limit_at published class self.now.case.zone self.now.case.strengthened self.now.case.annex_e at.now.n.0 at.now.v.0 at.now.rho.0 }
        ensures rotation_value { result.rotation ≡ rotation_limit_at published class self.now.case.zone self.now.case.strengthened self.now.case.annex_e self.now.case.factor at.now.n.0 at.now.v.0 at.now.rho.0 }
    {
        let s = LimitSet::published();
        let m = PlacedTable {
            places: &s.places,
            table: &s.m,
        };
        let rotation = PlacedTable {
            places: &s.places,
            table: &s.rotation,
        };
        let q = class.quarters(self.case.strengthened, self.case.annex_e);
        Limits {
            m: m.exact(class, self.case.zone, at).round_m(q),
            rotation: rotation
                .exact(class, self.case.zone, at)
                .round_rotation(q, self.case.factor),
        }
    }

    // The finding: met says whether its storey meets the 0.40 condition in the load case.
    #[tactic(auto, using(crate::proofs::Rounding::rotation_kept), unfolding(crate::specs::Finding::finding_by, crate::specs::Finding::is_over, crate::specs::Finding::m_limit_of, crate::specs::Finding::rotation_limit_of, crate::specs::Assembly::ratios))]
    pub fn find(&self, met: bool) -> Finding
        ensures { result ≡ finding self.now.level.hundredths met self.now.case }
    {
        let class = self.class();
        let at = self.ratios();
        let m = self.moment_ratio();
        let limits = self.limits(class, &at);
        let rotation = Microradians::steps(self.case.case.rotation, 1);
        let m_dropped = self.m_dropped(met);
        let over_m = !m_dropped && limits.m.0 < m.0;
        let over_rotation = limits.rotation.0 < rotation.0;
        Finding {
            class,
            m,
            m_limit: limits.m,
            rotation,
            rotation_limit: limits.rotation,
            over: over_m || over_rotation,
            nd: self.axial(self.case.nd),
            m_dropped,
            over_m,
            over_rotation,
        }
    }
}

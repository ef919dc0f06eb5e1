// The values of what is found of a member, a storey and a building, and of what is written of a survey.
ghost use Rattle.std.specs.Prelude.{◌≡◌, ℕ, ◌≤◌, List, [], ◌∷◌, ◌++◌};
ghost use Rattle.members.specs.Finding.{finding_values};
ghost use Rattle.storeys.specs.Storey.{finding_values as storey_values};
ghost use Rattle.columns.specs.Line.{at_front};
ghost use Rattle.answers.specs.Values.{by_form, member_values, judgment_values, building_values, number_values};

use crate::{Values, put_parts, put_words};
use members::finding::Finding;
use records::by_case::ByForm;
use storeys::{BuildingFinding, StoreyJudgment};
use totals::StoreyFinding;

// What is found in one load case, told in so many numbers.
trait CaseValues<const COUNT: usize> {
    ghost values: { Self → List ℕ };

    fn words(&self) -> [u64; COUNT]
        ensures { result ≡ values self.now };
}

// Class, m, its limit, rotation, its limit, over, n_D, whether the m test is dropped, over by m, over by the rotation.
impl CaseValues<10> for Finding {
    ghost values = { finding_values };

    fn words(&self) -> [u64; 10] {
        [
            self.class.code(),
            self.m.0,
            self.m_limit.0,
            self.rotation.0,
            self.rotation_limit.0,
            u64::from(self.over),
            self.nd.0,
            u64::from(self.m_dropped),
            u64::from(self.over_m),
            u64::from(self.over_rotation),
        ]
    }
}

// Σ, c, P, W, Risky, the 0.40 condition, by which of the three rules it is Risky, the allowed share's two numbers.
impl CaseValues<11> for StoreyFinding {
    ghost values = { storey_values };

    fn words(&self) -> [u64; 11] {
        [
            self.axial_total,
            self.members,
            self.over_shear,
            self.shear,
            u64::from(self.risky),
            u64::from(self.walls_suffice),
            u64::from(self.by_share),
            u64::from(self.by_one_over),
            u64::from(self.by_damage),
            self.allowed.num,
            self.allowed.den,
        ]
    }
}

// Some numbers, then those of the findings in each case of their form.
fn put_findings<T: CaseValues<COUNT>, const COUNT: usize>(
    out: &mut [u64],
    first: &[u64],
    findings: &ByForm<T>,
)
    requires { COUNT ≤ 100 }
    ensures { out.new ≡ at_front (first.now ++ by_form T.values findings.now) out.old }
{
    match findings {
        ByForm::One(f) => put_parts(out, first, &f.words()),
        ByForm::Four(f) => {
            let cases = [
                f.case1.words(),
                f.case2.words(),
                f.case3.words(),
                f.case4.words(),
            ];
            put_parts(out, first, cases.as_flattened());
        }
    }
}

// The findings of a member.
impl Values for ByForm<Finding> {
    ghost values = { member_values };

    fn put(&self, out: &mut [u64]) {
        put_findings(out, &[], self);
    }
}

// Risky, then the findings.
impl Values for StoreyJudgment {
    ghost values = { judgment_values };

    fn put(&self, out: &mut [u64]) {
        put_findings(out, &[u64::from(self.risky)], &self.findings);
    }
}

// Tilted, Risky, the first Risky storey's place, counted from 1, and its lowest numbered Risky case; 0 where none is.
impl Values for BuildingFinding {
    ghost values = { building_values };

    fn put(&self, out: &mut [u64]) {
        let (place, case) = match self.first {
            Some(storey) => (storey.place, storey.case),
            None => (0, 0),
        };
        let (tilted, risky) = (u64::from(self.tilted), u64::from(self.risky));
        put_words(out, &[tilted, risky, place, case]);
    }
}

// The length of a sheet or of a file.
impl Values for usize {
    ghost values = { number_values };

    fn put(&self, out: &mut [u64]) {
        put_words(out, &[*self as u64]);
    }
}

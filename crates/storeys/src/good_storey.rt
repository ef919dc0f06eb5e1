// A storey and its members that the checks of its form let pass, judged in each load case.
ghost use Rattle.std.specs.Prelude.{◌≡◌, ◌<◌};
ghost use Rattle.records.specs.Forms.{form_number};
ghost use Rattle.records.specs.Records.{case_count, storey_fault};
ghost use Rattle.storeys.specs.Rows.{Rows};

use crate::StoreyJudgment;
use crate::storey::walls_suffice;
use members::good_case::GoodCase;
use members::knowledge::Knowledge;
use records::by_case::{ByForm, FourCases};
use records::form::Form;
use records::{Member, Storey};
use totals::{StoreyFinding, Tally};

#[derive(Clone, Copy)]
pub struct GoodStorey<'a> {
    pub form: Form,
    pub level: Knowledge,
    pub storey: &'a Storey,
    pub members: &'a [Member],
    pub ghost good: { storey_fault (form_number form) storey.now ≡ 0 },
    pub ghost rows: { Rows (form_number form) members.now },
}

impl GoodStorey<'_> {
    ghost use Rattle.storeys.specs.Storey.{published_rules, finding_in, lowest_risky_case, judged_by};
    ghost use Rattle.storeys.specs.Place.{case_numbered};
    ghost use Rattle.storeys.specs.Tally.{tally_of};

    // The totals of the members in case c, counted from 0, judged with the 0.40 condition.
    fn tally(&self, met: bool, c: usize) -> Tally
        requires { c < case_count (form_number self.now.form) }
        ensures { result ≡ tally_of self.now.level.hundredths met c self.now.members.now }
    {
        let mut tally = Tally::none();
        for m in self.members {
            let one = GoodCase {
                case: m.in_case(c),
                level: self.level,
            };
            let finding = one.find(met);
            tally = tally.with_finding(&finding, &one.case);
        }
        tally
    }

    // The finding in case c.
    fn finding(&self, c: usize) -> StoreyFinding
        requires { c < case_count (form_number self.now.form) }
        ensures { result ≡ finding_in published_rules self.now.level.hundredths self.now.storey.now self.now.members.now c }
    {
        let shear = self.storey.shear(c);
        let met = walls_suffice(shear, self.members, c);
        StoreyFinding::of(shear, met, &self.tally(met, c))
    }

    // The lowest numbered Risky case of the form, where there is one.
    pub fn lowest_risky_case(&self) -> Option<u64>
        ensures { result ≡ case_numbered (lowest_risky_case published_rules (form_number self.now.form) self.now.level.hundredths self.now.storey.now self.now.members.now) }
    {
        let c = (0..self.form.case_count()).position(|c| self.finding(c).risky)?;
        Some(c as u64 + 1)
    }

    // The findings in the cases of the form.
    pub fn judgment(&self) -> StoreyJudgment
        ensures { result ≡ judged_by published_rules self.now.level.hundredths (form_number self.now.form) self.now.storey.now self.now.members.now }
    {
        let case1 = self.finding(0);
        match self.form {
            Form::Old => StoreyJudgment {
                risky: case1.risky,
                findings: ByForm::One(case1),
            },
            Form::FourCases => {
                let case2 = self.finding(1);
                let case3 = self.finding(2);
                let case4 = self.finding(3);
                StoreyJudgment {
                    risky: case1.risky | case2.risky | case3.risky | case4.risky,
                    findings: ByForm::Four(FourCases {
                        case1,
                        case2,
                        case3,
                        case4,
                    }),
                }
            }
        }
    }
}

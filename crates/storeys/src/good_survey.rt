// A survey that its check refuses nothing of, with its form and its knowledge level.
ghost use Rattle.std.specs.Prelude.{◌≡◌, MatchResult};
ghost use Rattle.records.specs.Forms.{form_number};
ghost use Rattle.records.specs.Refusals.{refusal_number};
ghost use Rattle.checks.specs.Rows.{records_fault};
ghost use Rattle.checks.specs.RowChecks.{records_of};
ghost use Rattle.checks.specs.RowsInTurn.{storeys_left, members_left};
ghost use Rattle.storeys.specs.Storey.{published_rules};
ghost use Rattle.storeys.specs.Building.{first_risky, first_risky_case};
ghost use Rattle.storeys.specs.Place.{place_of, case_number_of};
ghost use Rattle.storeys.specs.GoodStoreys.{rows_left, form_of, level_of};

use crate::RiskyStorey;
use crate::good_storeys::GoodStoreys;
use checks::Survey;
use members::knowledge::Knowledge;
use records::form::Form;
use records::refusal::Refusal;

#[derive(Clone, Copy)]
pub struct GoodSurvey<'a> {
    pub survey: Survey<'a>,
    pub form: Form,
    pub level: Knowledge,
    pub ghost good: { records_fault (records_of survey) ≡ 0 },
    pub ghost in_form: { form_number form ≡ survey.header.form },
    pub ghost in_level: { level.hundredths ≡ survey.header.knowledge },
}

impl<'a> TryFrom<Survey<'a>> for GoodSurvey<'a> {
    type Error = Refusal;

    ghost try_from_gives = { λ s r. MatchResult r (λ g. g.survey ≡ s) (λ e. refusal_number e ≡ records_fault (records_of s)) };

    #[tactic(auto, using(crate::proofs::Accepted::known_level))]
    fn try_from(survey: Survey<'a>) -> Result<GoodSurvey<'a>, Refusal> {
        let form = survey.check()?;
        let level = Knowledge {
            hundredths: survey.header.knowledge,
        };
        Ok(GoodSurvey {
            survey,
            form,
            level,
        })
    }
}

impl GoodSurvey<'_> {
    // Each storey with its own members.
    #[tactic(auto, using(crate::proofs::GoodStoreys::rows_good))]
    pub fn storeys(&self) -> GoodStoreys<'_>
        ensures storeys { storeys_left (rows_left result) ≡ self.now.survey.storeys.now }
        ensures members { members_left (rows_left result) ≡ self.now.survey.members.now }
        ensures form { form_of result ≡ self.now.form }
        ensures level { level_of result ≡ self.now.level }
    {
        GoodStoreys {
            rows: self.survey.storey_rows(),
            form: self.form,
            level: self.level,
        }
    }

    // The first Risky storey in survey order, where there is one.
    pub fn first_risky(&self) -> Option<RiskyStorey>
        ensures place { place_of result ≡ first_risky published_rules (records_of self.now.survey) }
        ensures case_number { case_number_of result ≡ first_risky_case published_rules (records_of self.now.survey) }
    {
        for (i, storey) in self.storeys().enumerate() {
            if let Some(case) = storey.lowest_risky_case() {
                let place = i as u64 + 1;
                return Some(RiskyStorey { place, case });
            }
        }
        None
    }
}

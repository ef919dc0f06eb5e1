// The call on a building, over lent rows of storeys and members.
ghost use Rattle.std.specs.Prelude.{◌≡◌};
ghost use Rattle.records.specs.Refusals.{numbered};
ghost use Rattle.checks.specs.RowChecks.{records_of};
ghost use Rattle.storeys.specs.Storey.{published_rules};
ghost use Rattle.storeys.specs.Building.{tilted, returned_building, building_returned};

use crate::BuildingFinding;
use crate::good_survey::GoodSurvey;
use checks::Survey;
use records::Header;
use records::refusal::Refusal;

// The largest tilt that does not make a building Risky, microradians.
const TILT_ALLOWED: u64 = 25_000;

// The larger tilt is above 25,000.
#[tactic(auto, unfolding(crate::specs::Building::tilted))]
pub fn is_tilted(h: &Header) -> bool
    ensures { result ≡ tilted h.now }
{
    TILT_ALLOWED < h.tilt1.max(h.tilt2)
}

// The call on a building: its header, its storeys, and the members of all of them in survey order.
#[tactic(auto, using(crate::proofs::Answered::refused))]
pub fn judge_building(survey: &Survey) -> Result<BuildingFinding, Refusal>
    ensures { returned_building (numbered result) ≡ building_returned published_rules (records_of survey.now) }
{
    let good = GoodSurvey::try_from(*survey)?;
    let first = good.first_risky();
    let tilted = is_tilted(&survey.header);
    Ok(BuildingFinding {
        tilted,
        risky: first.is_some() | tilted,
        first,
    })
}

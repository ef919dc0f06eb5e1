// Judging a storey and a building: what the calls answer (document 01, "Storey and building").

#![tactic(auto)]

ghost use Rattle.std.specs.Prelude.{◌<◌};

pub mod building;
pub mod good_storey;
pub mod good_storeys;
pub mod good_survey;
pub mod storey;

use records::by_case::ByForm;
use totals::StoreyFinding;

// What a storey is found to be in each load case; Risky where it is in some case.
#[derive(Clone, Copy)]
pub struct StoreyJudgment {
    pub risky: bool,
    pub findings: ByForm<StoreyFinding>,
}

// A Risky storey of a survey.
#[derive(Clone, Copy)]
pub struct RiskyStorey {
    // its place in survey order, counted from 1
    pub place: u64,
    // its lowest numbered Risky case, 1 in the old form
    pub case: u64,
    pub ghost counted: { (0 < place) × (0 < case) },
}

// What a building is found to be.
#[derive(Clone, Copy)]
pub struct BuildingFinding {
    // the larger tilt is above 25,000
    pub tilted: bool,
    pub risky: bool,
    // the first Risky storey, where there is one
    pub first: Option<RiskyStorey>,
}

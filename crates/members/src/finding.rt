// The calls on a member (document 01, "Member").
ghost use Rattle.std.specs.Prelude.{◌≡◌};
ghost use Rattle.records.specs.Refusals.{numbered};
ghost use Rattle.records.specs.Records.{member_case_fault, member_fault, in_case};
ghost use Rattle.members.specs.Finding.{finding, findings_by, case_answer_by, answer_by, returned_case, case_returned, returned, member_returned};
ghost use Rattle.members.specs.Tables.{published};

use crate::class::Class;
use crate::good_case::GoodCase;
use crate::knowledge::Knowledge;
use crate::units::{Microradians, Ratio};
use records::by_case::{ByForm, FourCases};
use records::form::Form;
use records::refusal::Refusal;
use records::{Member, MemberCase};
use validity::check_member;

// What a member is found to be in one load case.
#[derive(Clone, Copy)]
pub struct Finding {
    pub class: Class,
    pub m: Ratio,
    pub m_limit: Ratio,
    pub rotation: Microradians,
    pub rotation_limit: Microradians,
    pub over: bool,
    // n_D, for the storey's total
    pub nd: Ratio,
    // the m test is dropped
    pub m_dropped: bool,
    // over by m, and over by the rotation
    pub over_m: bool,
    pub over_rotation: bool,
}

// The call on a member in one load case: k is its survey's knowledge level.
#[tactic(auto, unfolding(crate::specs::Finding::case_answer_by))]
pub fn judge_case(k: u64, met: bool, m: MemberCase) -> Result<Finding, Refusal>
    ensures answer { numbered result ≡ case_answer_by published k met m }
    ensures returned { returned_case (numbered result) ≡ case_returned k met m }
{
    let level = Knowledge::try_from(k)?;
    let good = GoodCase::new(level, m)?;
    Ok(good.find(met))
}

// The finding of a member in case c, counted from 0, in which it is good.
#[tactic(auto, using(records::proofs::Validity::valid))]
fn find_in_case(k: Knowledge, met: bool, m: &Member, c: usize) -> Finding
    requires { member_case_fault (in_case c m.now) ≡ 0 }
    ensures { result ≡ finding k.hundredths met (in_case c m.now) }
{
    let good = GoodCase {
        case: m.in_case(c),
        level: k,
    };
    good.find(met)
}

// The findings of a good member in four cases.
#[tactic(auto, using(crate::proofs::Cases::good_in_each))]
fn find_in_cases(k: Knowledge, met: FourCases<bool>, m: &Member) -> FourCases<Finding>
    requires { member_fault 2 m.now ≡ 0 }
    ensures { result ≡ findings_by published k.hundredths met m.now }
{
    FourCases {
        case1: find_in_case(k, met.case1, m, 0),
        case2: find_in_case(k, met.case2, m, 1),
        case3: find_in_case(k, met.case3, m, 2),
        case4: find_in_case(k, met.case4, m, 3),
    }
}

// The call on a member: k is its survey's knowledge level, met its storey's 0.40 condition by case; that of cases which the form lacks is not looked at.
#[tactic(auto, using(crate::proofs::Cases::good_in_each), unfolding(crate::specs::Finding::answer_by))]
pub fn judge_member(
    k: u64,
    form: u64,
    met: FourCases<bool>,
    m: &Member,
) -> Result<ByForm<Finding>, Refusal>
    ensures answer { numbered result ≡ answer_by published k form met m.now }
    ensures returned { returned (numbered result) ≡ member_returned k form met m.now }
{
    let k = Knowledge::try_from(k)?;
    let form = Form::try_from(form)?;
    check_member(form, m)?;
    match form {
        Form::Old => Ok(ByForm::One(find_in_case(k, met.case1, m, 0))),
        Form::FourCases => Ok(ByForm::Four(find_in_cases(k, met, m))),
    }
}

// The calls on a member, a storey and a building.
ghost use Rattle.std.specs.Prelude.{◌≡◌};
ghost use Rattle.records.specs.Records.{survey_of};
ghost use Rattle.storeys.specs.Storey.{published_rules, storey_returned};
ghost use Rattle.storeys.specs.Building.{building_returned};
ghost use Rattle.members.specs.Finding.{member_returned};
ghost use Rattle.handed.specs.Handed.{header_handed, storey_handed, member_handed};
ghost use Rattle.exports.specs.Calls.{member_count, storey_count, building_count, met_by, given, out_after_call};

use crate::{SHORT, survey_given};
use answers::put_answer;
use handed::{member_given, storey_given};
use members::finding::judge_member;
use records::by_case::FourCases;
use records::{Member, Storey};
use storeys::building::judge_building;
use storeys::storey::judge_storey;

// Of four cases; the old form has fewer values.
const MEMBER_COUNT: usize = 40;

const STOREY_COUNT: usize = 45;

const BUILDING_COUNT: usize = 4;

// A member of a form, given by its fifty-one numbers, judged with k and whether its storey meets the 0.40 condition in each case; those of cases that the form lacks are not looked at.
#[unsafe(no_mangle)]
pub extern "C" fn llunareth_judge_member(
    k: u64,
    form: u64,
    met1: bool,
    met2: bool,
    met3: bool,
    met4: bool,
    values: &[u64],
    out: &mut [u64],
) -> u64
    ensures value { result ≡ given member_count (member_returned k form (met_by met1 met2 met3 met4) (member_handed values.now)) out.old }
    ensures out_after { out.new ≡ out_after_call member_count (member_returned k form (met_by met1 met2 met3 met4) (member_handed values.now)) out.old }
{
    if out.len() < MEMBER_COUNT {
        return SHORT;
    }
    let met = FourCases {
        case1: met1,
        case2: met2,
        case3: met3,
        case4: met4,
    };
    put_answer(out, judge_member(k, form, met, &member_given(values)))
}

// A storey of a form, given by its six numbers, and its members, judged with k.
#[unsafe(no_mangle)]
pub extern "C" fn llunareth_judge_storey(
    k: u64,
    form: u64,
    storey: &[u64],
    members: &[Member],
    out: &mut [u64],
) -> u64
    ensures value { result ≡ given storey_count (storey_returned k form (storey_handed storey.now) members.now) out.old }
    ensures out_after { out.new ≡ out_after_call storey_count (storey_returned k form (storey_handed storey.now) members.now) out.old }
{
    if out.len() < STOREY_COUNT {
        return SHORT;
    }
    put_answer(out, judge_storey(k, form, &storey_given(storey), members))
}

// A building.
#[unsafe(no_mangle)]
pub extern "C" fn llunareth_judge_building(
    header: &[u64],
    storeys: &[Storey],
    members: &[Member],
    out: &mut [u64],
) -> u64
    ensures value { result ≡ given building_count (building_returned published_rules (survey_of (header_handed header.now) storeys.now members.now)) out.old }
    ensures out_after { out.new ≡ out_after_call building_count (building_returned published_rules (survey_of (header_handed header.now) storeys.now members.now)) out.old }
{
    if out.len() < BUILDING_COUNT {
        return SHORT;
    }
    let survey = survey_given(header, storeys, members);
    put_answer(out, judge_building(&survey))
}

// What makes a record good by itself: every field in its range, and what holds between fields.
#![tactic(auto)]

ghost use Rattle.std.specs.Prelude.{◌≡◌, ◌&&◌, ◌∷◌, ltb, eqb, length, IfOk};
ghost use Rattle.records.specs.Notation.{pick, every_below};
ghost use Rattle.records.specs.declared.Kind.TheVariants.{D};
ghost use Rattle.records.specs.Forms.{form_number};
ghost use Rattle.records.specs.Refusals.{fault_of};
ghost use Rattle.validity.specs.Cases.{case_good, case_alone};
ghost use Rattle.records.specs.Records.{case_count, case_values, case_fits, is_blank, line_in_range, storey_kind, storey_values, shears_fit, sides_fault, header_fault, storey_fault, member_case_fault, member_fault};

use ranges::line_in_ranges;
use records::by_form_number::form_for;
use records::form::Form;
use records::refusal::Refusal;
use records::{CASES, Header, Kind, LoadCase, Member, MemberCase, Storey};

// The most of a low-rise building: H_T in mm, and n_s.
const HEIGHT_MOST: u64 = 30_000;

const STOREYS_MOST: u64 = 10;

// A header by itself: 3 or 7. Of a good one its form.
#[tactic(auto, unfolding(records::specs::Records::header_fault))]
pub fn check_header(h: &Header) -> Result<Form, Refusal>
    ensures fault { fault_of result ≡ header_fault h.now }
    ensures form { IfOk result (λ form. form_number form ≡ h.now.form) }
{
    if !line_in_ranges(Kind::B, &h.values()) {
        return Err(Refusal::OutOfRange);
    }
    let form = Form::try_from(h.form)?;
    if HEIGHT_MOST < h.height || STOREYS_MOST < h.storeys {
        return Err(Refusal::NotLowRise);
    }
    Ok(form)
}

// A storey's fields are in their ranges, and the shears of cases that the form lacks hold 0.
fn storey_fits(form: Form, s: &Storey) -> bool
    ensures { result ≡ (line_in_range (storey_kind (form_number form)) (storey_values (form_number form) s.now) && shears_fit (form_number form) s.now) }
{
    match form {
        Form::Old => line_in_ranges(Kind::S, &s.values()) && s.shears[1..] == [0; CASES - 1],
        Form::FourCases => line_in_ranges(Kind::S4, &s.values_in_cases()),
    }
}

// A storey of a form by itself: 3.
#[tactic(auto, unfolding(records::specs::Records::storey_fault))]
pub fn check_storey(form: Form, s: &Storey) -> Result<(), Refusal>
    ensures { fault_of result ≡ storey_fault (form_number form) s.now }
{
    if !storey_fits(form, s) {
        return Err(Refusal::OutOfRange);
    }
    Ok(())
}

// The same by the number of a form; one that is that of no form is taken as the old form.
#[tactic(auto, using(records::proofs::OtherForms::storey_fault_for))]
pub fn storey_fault(form: u64, s: &Storey) -> Result<(), Refusal>
    ensures { fault_of result ≡ storey_fault form s.now }
{
    check_storey(form_for(form), s)
}

// 4, short side above long side.
pub fn check_sides(short: u64, long: u64) -> Result<(), Refusal>
    ensures { fault_of result ≡ sides_fault short long }
{
    if long < short {
        return Err(Refusal::SidesExchanged);
    }
    Ok(())
}

// A member in a load case by itself: 3 or 4.
#[tactic(auto, unfolding(records::specs::Records::member_case_fault))]
pub fn check_member_case(m: &MemberCase) -> Result<(), Refusal>
    ensures { fault_of result ≡ member_case_fault m.now }
{
    if !line_in_ranges(Kind::M, &m.values()) {
        return Err(Refusal::OutOfRange);
    }
    check_sides(m.short, m.long)
}

// Case c of a form, counted from 0: its fields are in their ranges, as those of a D line, or it holds what a case does that the form lacks.
#[tactic(auto, unfolding(records::specs::Records::is_blank, records::specs::Notation::every_below))]
fn case_fits(form: Form, c: usize, case: &LoadCase) -> bool
    ensures { result ≡ case_good (form_number form) c case.now }
{
    if c < form.case_count() {
        return line_in_ranges(Kind::D, &case.values(1));
    }
    *case == LoadCase::none()
}

// Each case of a member fits its form. There are four.
fn cases_fit(form: Form, cases: &[LoadCase; CASES]) -> bool
    ensures four { length cases.now ≡ 4 }
    ensures value { result ≡ every_below (case_alone (form_number form) cases.now) 4 }
{
    cases
        .iter()
        .enumerate()
        .all(|(c, case)| case_fits(form, c, case))
}

// The fields of a member that are the same in each case are in their ranges, and each case fits the form.
fn member_fits(form: Form, m: &Member) -> bool
    ensures { result ≡ (eqb (length m.now.cases) 4 && every_below (case_fits (form_number form) m.now) 4) }
{
    cases_fit(form, &m.cases) && line_in_ranges(Kind::M4, &m.values())
}

// A member of a form by itself: 3 or 4.
#[tactic(auto, unfolding(records::specs::Records::member_fault))]
pub fn check_member(form: Form, m: &Member) -> Result<(), Refusal>
    ensures { fault_of result ≡ member_fault (form_number form) m.now }
{
    if !member_fits(form, m) {
        return Err(Refusal::OutOfRange);
    }
    check_sides(m.short, m.long)
}

// The same by the number of a form; one that is that of no form is taken as the old form.
#[tactic(auto, using(records::proofs::OtherForms::member_fault_for))]
pub fn member_fault(form: u64, m: &Member) -> Result<(), Refusal>
    ensures { fault_of result ≡ member_fault form m.now }
{
    check_member(form_for(form), m)
}

// Records handed in as numbers, for the calls for other languages: a header's seven, a storey's six, a member's fifty-one, N_D and N_K counted from -20,000,000. A number that is not given is outside every range.
#![tactic(auto)]

ghost use Rattle.std.specs.Prelude.{◌≡◌, ◌≤◌, map};
ghost use Rattle.std.specs.List.{range_with_len};
ghost use Rattle.records.specs.Records.{fields, case_by};
ghost use Rattle.records.specs.declared.Kind.TheVariants.{M};
ghost use Rattle.handed.specs.Handed.{handed, header_handed, storey_handed, member_handed};

use records::form::Form;
use records::numbers::value_or;
use records::{FIELDS_MOST, Header, LoadCase, MEMBER_CASES_FIELDS, Member, Storey};
use std::array;

// What stands for a number that is not given.
const MISSING: u64 = u64::MAX;

// As many numbers of a slice as a line has at most.
fn values_of(values: &[u64]) -> [u64; FIELDS_MOST]
    ensures { result ≡ map (handed values.now) (range_with_len 0 (fields M)) }
{
    array::from_fn(|j| value_or(values, j, MISSING))
}

pub fn header_given(values: &[u64]) -> Header
    ensures { result ≡ header_handed values.now }
{
    Header::of(value_or(values, 6, MISSING), &values_of(values))
}

pub fn storey_given(values: &[u64]) -> Storey
    ensures { result ≡ storey_handed values.now }
{
    Storey::of(Form::FourCases, &values_of(values))
}

// The load case whose numbers stand from number j on.
fn case_given(values: &[u64], j: usize) -> LoadCase
    requires { j ≤ 43 }
    ensures { result ≡ case_by (handed values.now) j }
{
    LoadCase::from(array::from_fn(|i| value_or(values, j + i, MISSING)))
}

pub fn member_given(values: &[u64]) -> Member
    ensures { result ≡ member_handed values.now }
{
    let annex_e = value_or(values, MEMBER_CASES_FIELDS - 1, MISSING);
    let cases = array::from_fn(|c| case_given(values, MEMBER_CASES_FIELDS + 8 * c));
    Member::with_cases(&values_of(values), annex_e, cases)
}

// What a form has, by any number: one that is that of no form has the lines and the cases of the old form.
ghost use Rattle.std.specs.Prelude.{◌≡◌, ℕ, get_or};
ghost use Rattle.records.specs.Forms.{form_for};
ghost use Rattle.records.specs.Records.{case_count, member_kind, storey_by, storey_kind};

use crate::form::Form;
use crate::{FIELDS_MOST, Kind, Storey};

// The form whose lines and cases a number has.
#[tactic(auto, using(crate::proofs::Forms::for_known, crate::proofs::Forms::for_other))]
pub fn form_for(number: u64) -> Form
    ensures { result ≡ form_for number }
{
    Form::try_from(number).unwrap_or(Form::Old)
}

// How many load cases it has.
#[tactic(auto, using(crate::proofs::Forms::cases_for))]
pub fn case_count(form: u64) -> usize
    ensures { result ≡ case_count form }
{
    form_for(form).case_count()
}

// The kind of its S lines, and of its M lines.
#[tactic(auto, using(crate::proofs::Forms::cases_for))]
pub fn storey_kind(form: u64) -> Kind
    ensures { result ≡ storey_kind form }
{
    form_for(form).storey_kind()
}

#[tactic(auto, using(crate::proofs::Forms::cases_for))]
pub fn member_kind(form: u64) -> Kind
    ensures { result ≡ member_kind form }
{
    form_for(form).member_kind()
}

// Of an S line's numbers.
#[tactic(auto, using(crate::proofs::Forms::cases_for))]
pub fn storey_of(form: u64, vs: &[u64; FIELDS_MOST]) -> Storey
    ensures { result ≡ storey_by form (λ (j : ℕ). get_or vs.now j 0) }
{
    Storey::of(form_for(form), vs)
}

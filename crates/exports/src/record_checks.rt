// The checks of one record, given by its numbers, N_D and N_K counted from -20,000,000; a number that is not given is outside every range. Each gives the refusal, 0
// where there is none. A storey's and a member's go by the form, of which one that is not known is 3.
ghost use Rattle.std.specs.Prelude.{◌≡◌};
ghost use Rattle.records.specs.Notation.{pick};
ghost use Rattle.records.specs.Records.{known_form, header_fault, storey_fault, member_fault};
ghost use Rattle.records.specs.Refusals.{fault_of};
ghost use Rattle.handed.specs.Handed.{header_handed, storey_handed, member_handed};

use handed::{header_given, member_given, storey_given};
use records::form::Form;
use records::refusal::Refusal;
use validity::{check_header, check_member, check_storey};

// The refusal, 0 where there is none.
fn fault_of<T: Drop>(outcome: Result<T, Refusal>) -> u64
    ensures { result ≡ fault_of outcome }
{
    match outcome {
        Ok(_) => 0,
        Err(refusal) => refusal.number(),
    }
}

#[unsafe(no_mangle)]
pub extern "C" fn llunareth_header_fault(values: &[u64]) -> u64
    ensures { result ≡ header_fault (header_handed values.now) }
{
    fault_of(check_header(&header_given(values)))
}

#[unsafe(no_mangle)]
pub extern "C" fn llunareth_storey_fault(form: u64, values: &[u64]) -> u64
    ensures { result ≡ pick (known_form form) (storey_fault form (storey_handed values.now)) 3 }
{
    fault_of(Form::try_from(form).and_then(|form| check_storey(form, &storey_given(values))))
}

#[unsafe(no_mangle)]
pub extern "C" fn llunareth_member_fault(form: u64, values: &[u64]) -> u64
    ensures { result ≡ pick (known_form form) (member_fault form (member_handed values.now)) 3 }
{
    fault_of(Form::try_from(form).and_then(|form| check_member(form, &member_given(values))))
}

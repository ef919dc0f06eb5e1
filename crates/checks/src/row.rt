// A record of a survey among those of its kind.
ghost use Rattle.std.specs.Prelude.{◌≡◌, ℕ, [], ◌∷◌, eqb};
ghost use Rattle.std.specs.List.{list_any};
ghost use Rattle.records.specs.Notation.{pick, in_order};
ghost use Rattle.records.specs.Forms.{form_number};
ghost use Rattle.records.specs.Refusals.{fault_of};
ghost use Rattle.records.specs.Records.{storey_fault, member_fault};

use records::form::Form;
use records::refusal::Refusal;
use records::{Member, Storey};
use validity::{check_member, check_storey};

// A record with a number, and with a check of its own.
pub(crate) trait Row {
    ghost number_of: { Self → ℕ };

    ghost fault_in: { ℕ → Self → ℕ };

    fn number(&self) -> u64
        ensures { result ≡ number_of self.now };

    fn check(&self, form: Form) -> Result<(), Refusal>
        ensures { fault_of result ≡ fault_in (form_number form) self.now };
}

impl Row for Storey {
    ghost number_of = { λ s. s.number };

    ghost fault_in = { storey_fault };

    fn number(&self) -> u64 {
        self.number // field 1 of an S line
    }

    fn check(&self, form: Form) -> Result<(), Refusal> {
        check_storey(form, self)
    }
}

impl Row for Member {
    ghost number_of = { λ m. m.number };

    ghost fault_in = { member_fault };

    fn number(&self) -> u64 {
        self.number // field 1 of an M line
    }

    fn check(&self, form: Form) -> Result<(), Refusal> {
        check_member(form, self)
    }
}

// One of some records has the number.
fn is_taken<R: Row>(before: &[R], number: u64) -> bool
    ensures { result ≡ list_any (λ r. eqb (R.number_of r) number) before.now }
{
    before.iter().any(|r| r.number() == number)
}

// A record of a form after others: its own 3 and 4, then 5 where its number is that of one before it.
pub(crate) fn check_among<R: Row>(form: Form, before: &[R], row: &R) -> Result<(), Refusal>
    ensures { fault_of result ≡ in_order (R.fault_in (form_number form) row.now ∷ pick (list_any (λ r. eqb (R.number_of r) (R.number_of row.now)) before.now) 5 0 ∷ []) }
{
    row.check(form)?;
    if is_taken(before, row.number()) {
        return Err(Refusal::NumberRepeated);
    }
    Ok(())
}

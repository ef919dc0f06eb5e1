// The checks of a survey's records over lent rows.
#![tactic(auto)]

mod row;
pub mod storey_rows;

ghost use Rattle.std.specs.Prelude.{◌≡◌, eqb, length, IfOk};
ghost use Rattle.records.specs.Notation.{first, total};
ghost use Rattle.records.specs.Forms.{form_number};
ghost use Rattle.records.specs.Refusals.{fault_of};
ghost use Rattle.checks.specs.Rows.{member_rows_fault, storey_rows_fault, records_fault};
ghost use Rattle.checks.specs.RowChecks.{records_of};
ghost use Rattle.checks.specs.RowsInTurn.{storeys_left, members_left};

use crate::row::check_among;
use crate::storey_rows::StoreyRows;
use records::by_form_number::form_for;
use records::form::Form;
use records::refusal::Refusal;
use records::{Header, Member, Storey};
use validity::check_header;

// A survey's records: its header, its storeys, and the members of all of them in survey order.
#[derive(Clone, Copy)]
pub struct Survey<'a> {
    pub header: Header,
    pub storeys: &'a [Storey],
    pub members: &'a [Member],
}

// The members of a storey of a form, in their order.
pub fn check_members(form: Form, rows: &[Member]) -> Result<(), Refusal>
    ensures { fault_of result ≡ member_rows_fault (form_number form) rows.now }
{
    for (j, m) in rows.iter().enumerate() {
        check_among(form, &rows[..j], m)?;
    }
    Ok(())
}

// The same by the number of a form; one that is that of no form is taken as the old form.
#[tactic(auto, using(crate::proofs::OtherForms::member_rows_fault_for))]
pub fn members_fault(form: u64, rows: &[Member]) -> Result<(), Refusal>
    ensures { fault_of result ≡ member_rows_fault form rows.now }
{
    check_members(form_for(form), rows)
}

// The counts of the storeys add up to `rows`. Each count is taken from the rows still left, so that nothing can overflow.
fn counts_fit(storeys: &[Storey], rows: usize) -> bool
    ensures { result ≡ eqb (total (λ s. s.count) storeys.now) rows }
{
    let left = storeys
        .iter()
        .try_fold(rows, |left, s| left.checked_sub(s.member_count()));
    left == Some(0)
}

impl Survey<'_> {
    // Each storey with its own members.
    pub fn storey_rows(&self) -> StoreyRows<'_>
        ensures storeys { storeys_left result ≡ self.now.storeys.now }
        ensures members { members_left result ≡ self.now.members.now }
    {
        StoreyRows::new(self.storeys, self.members)
    }

    // The storeys of a form and their members, in survey order.
    fn check_rows(&self, form: Form) -> Result<(), Refusal>
        ensures { fault_of result ≡ first 0 (λ n. n) (storey_rows_fault (form_number form) self.now.storeys.now self.now.members.now) (length self.now.storeys.now) }
    {
        for (i, (storey, own)) in self.storey_rows().enumerate() {
            check_among(form, &self.storeys[..i], storey)?;
            check_members(form, own)?;
        }
        Ok(())
    }

    // 1 over all, then the records in survey order. Of good ones the form.
    pub fn check(&self) -> Result<Form, Refusal>
        ensures fault { fault_of result ≡ records_fault (records_of self.now) }
        ensures form { IfOk result (λ form. form_number form ≡ self.now.header.form) }
    {
        if self.header.count != self.storeys.len() as u64 {
            return Err(Refusal::Structure);
        }
        if !counts_fit(self.storeys, self.members.len()) {
            return Err(Refusal::Structure);
        }
        let form = check_header(&self.header)?;
        self.check_rows(form)?;
        Ok(form)
    }
}

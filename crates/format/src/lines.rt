// The lines of a survey file.
ghost use Rattle.std.specs.Prelude.{◌≡◌, drop, is_some, IfSome, IfOk};
ghost use Rattle.records.specs.Notation.{pick};
ghost use Rattle.records.specs.Forms.{form_number};
ghost use Rattle.records.specs.Refusals.{fault_of};
ghost use Rattle.format.specs.Lines.{tag_byte, line_size, case_lines, member_size, line_end, shaped, is_force, fields_fault, framed, holds_fields, written_fault, number_held, Holds, FieldsOf};

use crate::line_fields::HeldLine;
use records::form::Form;
use records::refusal::Refusal;
use records::{CASES, FIELDS_MOST, Kind};

pub fn tag_byte(kind: Kind) -> u8
    ensures { result ≡ tag_byte kind }
{
    match kind {
        Kind::B => b'B',
        Kind::S => b'S',
        Kind::M => b'M',
        Kind::S4 => b'S',
        Kind::M4 => b'M',
        Kind::D => b'D',
    }
}

// How many bytes a line takes: its tag, its fields of 8 columns and LF.
pub fn line_size(kind: Kind) -> usize
    ensures { result ≡ line_size kind }
{
    2 + 8 * kind.field_count()
}

// How many D lines follow an M line.
pub fn case_lines(form: Form) -> usize
    ensures { result ≡ case_lines (form_number form) }
{
    match form {
        Form::Old => 0,
        Form::FourCases => CASES,
    }
}

// How many bytes an M line and its D lines take.
pub fn member_size(form: Form) -> usize
    ensures { result ≡ member_size (form_number form) }
{
    line_size(form.member_kind()) + line_size(Kind::D) * case_lines(form)
}

pub fn is_force(kind: Kind, j: usize) -> bool
    ensures { result ≡ is_force kind j }
{
    match kind {
        Kind::M => j == 17 || j == 18,
        Kind::M4 => j == 17,
        Kind::D => j == 1,
        Kind::B => false,
        Kind::S => false,
        Kind::S4 => false,
    }
}

// The bytes from `at` on: none past the end.
fn rest(s: &[u8], at: usize) -> &[u8]
    ensures { result.now ≡ drop at s.now }
{
    s.get(at..).unwrap_or(&[])
}

// How many bytes stand before the first LF: all of them where there is none.
fn line_end(s: &[u8]) -> usize
    ensures { result ≡ line_end s.now }
{
    s.iter().position(|b| *b == b'\n').unwrap_or(s.len())
}

// How many bytes stand before the first LF from `at` on.
pub fn line_length(s: &[u8], at: usize) -> usize
    ensures { result ≡ line_end (drop at s.now) }
{
    line_end(rest(s, at))
}

// The numbers of a line's fields, in order, and whether all of them are written as they must be.
#[derive(Clone, Copy)]
pub struct FieldNumbers {
    pub written: bool,
    pub values: [u64; FIELDS_MOST],
}

// A line of a file, of the kind due where it begins.
#[derive(Clone, Copy)]
pub struct Line<'a> {
    pub file: &'a [u8],
    pub at: usize,
    pub kind: Kind,
}

impl Line<'_> {
    // The line has its tag and its length.
    pub fn is_shaped(&self) -> bool
        ensures { result ≡ shaped self.now.kind (drop self.now.at self.now.file.now) }
    {
        self.is_framed() && line_length(self.file, self.at) == line_size(self.kind) - 1
    }

    // Its tag and its LF stand where they must.
    pub fn is_framed(&self) -> bool
        ensures { result ≡ framed self.now.kind (drop self.now.at self.now.file.now) }
    {
        let last = line_size(self.kind) - 1;
        let rest = rest(self.file, self.at);
        last < rest.len() && rest[0] == tag_byte(self.kind) && rest[last] == b'\n'
    }

    // The line, if the bytes hold its fields.
    fn held(&self) -> Option<HeldLine<'_>>
        ensures held { is_some result ≡ holds_fields self.now.kind self.now.file.now self.now.at }
        ensures line { IfSome result (λ held. held.line ≡ self.now) }
    {
        let size = 1 + 8 * self.kind.field_count();
        if size <= self.file.len() && self.at <= self.file.len() - size {
            Some(HeldLine { line: *self })
        } else {
            None
        }
    }

    // The numbers of its fields, in order; refused where the bytes end before them or one is not written as it must be.
    pub fn read_fields(&self) -> Result<[u64; FIELDS_MOST], Refusal>
        ensures fault { fault_of result ≡ pick (holds_fields self.now.kind self.now.file.now self.now.at) (written_fault self.now.kind self.now.file.now self.now.at) 1 }
        ensures values { IfOk result (Holds self.now.kind self.now.file.now self.now.at) }
    {
        self.held().ok_or(Refusal::Structure)?.numbers()
    }

    // The number that field j holds, counted from 0: none where the bytes end before the line's fields, where it has no such field, or where the field is not written
    // as it must be.
    pub fn number(&self, j: usize) -> Option<u64>
        ensures { result ≡ number_held self.now.kind self.now.file.now self.now.at j }
    {
        self.held()?.number(j)
    }

    // The number of each field, 0 for one that is not written as it must be, and whether all are written; where the bytes end before the line's fields, none is.
    pub fn field_numbers(&self) -> FieldNumbers
        ensures { FieldsOf self.now.kind self.now.file.now self.now.at result }
    {
        let mut written = true;
        let mut values = [0; FIELDS_MOST];
        for j in 0..self.kind.field_count() {
            let number = self.number(j);
            written &= number.is_some();
            values[j] = number.unwrap_or(0);
        }
        FieldNumbers { written, values }
    }

    // The first refusal among its fields, or that the bytes end before them.
    pub fn check_fields(&self) -> Result<(), Refusal>
        ensures { fault_of result ≡ pick (holds_fields self.now.kind self.now.file.now self.now.at) (fields_fault self.now.kind self.now.file.now self.now.at) 1 }
    {
        self.held().ok_or(Refusal::Structure)?.check()
    }
}

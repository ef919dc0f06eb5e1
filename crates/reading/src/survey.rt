// A survey file: its first refusal, with the line; and the records of an accepted one.
ghost use Rattle.std.specs.Prelude.{◌≡◌, ℕ, ◌+◌, ◌<◌, ◌≤◌, length, IfOk};
ghost use Rattle.records.specs.Notation.{listed};
ghost use Rattle.records.specs.Forms.{form_number};
ghost use Rattle.records.specs.Refusals.{fault_of};
ghost use Rattle.records.specs.Records.{storey_kind, member_kind};
ghost use Rattle.records.specs.declared.Kind.TheVariants.{D};
ghost use Rattle.format.specs.Lines.{value_at, Holds, header_at, storey_at, case_start, case_at, member_at};
ghost use Rattle.reading.specs.Checks.{storey_first, member_first, MembersDue, Sound, MemberSound, MembersSound, Fits, start_of};
ghost use Rattle.reading.specs.Survey.{form_of, line_start, line_number, members_before, storey, header_line_fault, case_line_fault, cases_fault, members_fault, lines_fault, survey};
ghost use Rattle.reading.specs.Filling.{filled_members};
ghost use Rattle.reading.specs.Answer.{found, lined, tells, told};

use crate::line::{check_case_number, check_new, read_line};
use crate::place::Place;
use format::lines::{Line, case_lines, line_length, line_size, member_size};
use records::form::Form;
use records::refusal::Refusal;
use records::{FIELDS_MOST, Header, Kind, LoadCase, MEMBER_CASES_FIELDS, Member, Storey};
use std::array;
use validity::{check_header, check_sides};

// Why a file is refused, and the line.
#[derive(Clone, Copy)]
pub struct LineRefusal {
    pub refusal: Refusal,
    pub line: u64,
}

// What an accepted file came to: its header, and how many rows were filled.
#[derive(Clone, Copy)]
pub struct Filled {
    pub header: Header,
    pub storeys: usize,
    pub members: usize,
}

// What the checks of a line came to; a refusal with the number of the line.
fn at_line<T>(outcome: Result<T, Refusal>, line: u64) -> Result<T, LineRefusal>
    ensures { result ≡ lined line outcome }
{
    outcome.map_err(|refusal| LineRefusal { refusal, line })
}

// The form of a file, by the length of its first S line.
fn file_form(s: &[u8]) -> Form
    ensures { form_number result ≡ form_of s.now }
{
    if line_length(s, line_size(Kind::B)) == line_size(Kind::S4) - 1 {
        Form::FourCases
    } else {
        Form::Old
    }
}

// A file, with the form of its lines.
#[derive(Clone, Copy)]
pub(crate) struct File<'a> {
    bytes: &'a [u8],
    form: Form,
    ghost formed: { form_number form ≡ form_of bytes.now },
}

impl<'a> File<'a> {
    pub(crate) fn new(bytes: &'a [u8]) -> File<'a>
        ensures { result.bytes.now ≡ bytes.now }
    {
        File {
            bytes,
            form: file_form(bytes),
        }
    }

    // Where the line at a place begins.
    fn line_start(&self, place: Place) -> usize
        ensures { result ≡ start_of (form_number self.now.form) place }
    {
        let storeys = line_size(self.form.storey_kind()) * place.storeys;
        let members = member_size(self.form) * place.members;
        line_size(Kind::B) + storeys + members
    }

    // The number of that line.
    fn line_number(&self, place: Place) -> u64
        ensures { result ≡ line_number (form_number self.now.form) place.storeys place.members }
    {
        (2 + place.storeys + (1 + case_lines(self.form)) * place.members) as u64
    }

    // Where D line c of the M line at a place begins.
    fn case_start(&self, place: Place, c: usize) -> usize
        requires { c < 4 }
        ensures { result ≡ case_start (start_of (form_number self.now.form) place) c }
    {
        self.line_start(place) + line_size(Kind::M4) + line_size(Kind::D) * c
    }

    // The line of a kind at `at`.
    fn line(&self, at: usize, kind: Kind) -> Line<'a>
        ensures file { result.file.now ≡ self.now.bytes.now }
        ensures at { result.at ≡ at }
        ensures kind { result.kind ≡ kind }
    {
        Line {
            file: self.bytes,
            at,
            kind,
        }
    }

    // The B line.
    fn read_header(&self) -> Result<Header, Refusal>
        ensures fault { fault_of result ≡ header_line_fault self.now.bytes.now }
        ensures header { IfOk result (λ h. h ≡ header_at (form_of self.now.bytes.now) self.now.bytes.now 0) }
    {
        let vs = read_line(&self.line(0, Kind::B), true)?;
        let header = Header::of(self.form.number(), &vs);
        check_header(&header)?;
        Ok(header)
    }

    // The S line at a place, after those that have the numbers `before`.
    fn read_storey(&self, place: Place, row_free: bool, before: &[u64]) -> Result<Storey, Refusal>
        ensures fault { fault_of result ≡ storey_first (form_number self.now.form) self.now.bytes.now (start_of (form_number self.now.form) place) row_free before.now }
        ensures storey { IfOk result (λ st. st ≡ storey_at (form_number self.now.form) self.now.bytes.now (start_of (form_number self.now.form) place)) }
    {
        let line = self.line(self.line_start(place), self.form.storey_kind());
        let vs = read_line(&line, row_free)?;
        let storey = Storey::of(self.form, &vs);
        check_new(storey.number, before)?;
        Ok(storey)
    }

    // The M line at a place, after those that have the numbers `before`; of a good one only the number is wanted.
    fn read_member(&self, place: Place, row_free: bool, before: &[u64]) -> Result<u64, Refusal>
        ensures fault { fault_of result ≡ member_first (form_number self.now.form) self.now.bytes.now (start_of (form_number self.now.form) place) row_free before.now }
        ensures number { IfOk result (λ v. v ≡ value_at (member_kind (form_number self.now.form)) self.now.bytes.now (start_of (form_number self.now.form) place) 0) }
    {
        let line = self.line(self.line_start(place), self.form.member_kind());
        let vs = read_line(&line, row_free)?;
        check_sides(vs[2], vs[1])?;
        check_new(vs[0], before)?;
        Ok(vs[0])
    }

    // D line c of the M line at a place.
    fn check_case(&self, place: Place, c: usize) -> Result<(), Refusal>
        requires { c < 4 }
        ensures { fault_of result ≡ case_line_fault self.now.bytes.now (case_start (start_of (form_number self.now.form) place) c) c }
    {
        let line = self.line(self.case_start(place, c), Kind::D);
        let vs = read_line(&line, true)?;
        check_case_number(vs[0], c)
    }

    // The first refusal of the D lines of the M line at a place.
    fn check_cases(&self, place: Place) -> Result<(), LineRefusal>
        ensures { found result ≡ cases_fault (form_number self.now.form) self.now.bytes.now (start_of (form_number self.now.form) place) (line_number (form_number self.now.form) place.storeys place.members) }
    {
        for c in 0..case_lines(self.form) {
            let line = self.line_number(place) + 1 + c as u64;
            at_line(self.check_case(place, c), line)?;
        }
        Ok(())
    }

    // The first refusal of the M lines of a storey, whose S line is at the place `storey`, and of their D lines.
    fn check_members(&self, storey: Place, count: usize, rows: usize) -> Result<(), LineRefusal>
        requires { MembersDue (form_number self.now.form) self.now.bytes.now storey.storeys storey.members count }
        ensures { found result ≡ members_fault (form_number self.now.form) self.now.bytes.now rows storey.storeys }
    {
        let mut numbers = [0; 200];
        for j in 0..count {
            let place = Place {
                storeys: storey.storeys + 1,
                members: storey.members + j,
            };
            let number = self.read_member(place, place.members < rows, &numbers[..j]);
            numbers[j] = at_line(number, self.line_number(place))?;
            self.check_cases(place)?;
        }
        Ok(())
    }

    // How many members the n storeys have, or the first refusal of the S lines and their M lines, and of what follows the last.
    fn check_storeys(&self, n: usize, srows: usize, mrows: usize) -> Result<usize, LineRefusal>
        requires { n ≤ 10 }
        ensures fault { found result ≡ lines_fault (form_number self.now.form) self.now.bytes.now srows mrows n }
        ensures members { IfOk result (λ m. m ≡ members_before (form_number self.now.form) self.now.bytes.now n) }
    {
        let mut numbers = [0; 10];
        let mut m = 0;
        for i in 0..n {
            let place = Place {
                storeys: i,
                members: m,
            };
            let storey = self.read_storey(place, i < srows, &numbers[..i]);
            let storey = at_line(storey, self.line_number(place))?;
            self.check_members(place, storey.member_count(), mrows)?;
            numbers[i] = storey.number;
            m += storey.member_count();
        }
        let end = Place {
            storeys: n,
            members: m,
        };
        if self.line_start(end) < self.bytes.len() {
            return Err(LineRefusal {
                refusal: Refusal::TrailingBytes,
                line: self.line_number(end),
            });
        }
        Ok(m)
    }

    // What reading the file comes to, with so many storey and member rows lent.
    pub(crate) fn check(&self, srows: usize, mrows: usize) -> Result<Filled, LineRefusal>
        ensures { tells result ≡ told (survey self.now.bytes.now srows mrows) }
    {
        let header = at_line(self.read_header(), 1)?;
        let storeys = header.count as usize;
        let members = self.check_storeys(storeys, srows, mrows)?;
        Ok(Filled {
            header,
            storeys,
            members,
        })
    }

    // The numbers of a line of which no field is refused.
    fn sound_fields(&self, at: usize, kind: Kind) -> [u64; FIELDS_MOST]
        requires { Sound kind self.now.bytes.now at }
        ensures { Holds kind self.now.bytes.now at result }
    {
        self.line(at, kind).read_fields().unwrap()
    }

    // The storey of such an S line.
    fn storey_at(&self, place: Place) -> Storey
        requires { Sound (storey_kind (form_number self.now.form)) self.now.bytes.now (start_of (form_number self.now.form) place) }
        ensures { result ≡ storey_at (form_number self.now.form) self.now.bytes.now (start_of (form_number self.now.form) place) }
    {
        let vs = self.sound_fields(self.line_start(place), self.form.storey_kind());
        Storey::of(self.form, &vs)
    }

    // The load case of such a D line.
    fn case_at(&self, at: usize) -> LoadCase
        requires { Sound D self.now.bytes.now at }
        ensures { result ≡ case_at self.now.bytes.now at }
    {
        LoadCase::of(&self.sound_fields(at, Kind::D))
    }

    // The member of such an M line and its D lines.
    fn member_at(&self, place: Place) -> Member
        requires { MemberSound (form_number self.now.form) self.now.bytes.now (start_of (form_number self.now.form) place) }
        ensures { result ≡ member_at (form_number self.now.form) self.now.bytes.now (start_of (form_number self.now.form) place) }
    {
        let vs = self.sound_fields(self.line_start(place), self.form.member_kind());
        match self.form {
            Form::Old => Member::of(&vs),
            Form::FourCases => {
                let cases = array::from_fn(|c| self.case_at(self.case_start(place, c)));
                Member::with_cases(&vs, vs[MEMBER_CASES_FIELDS - 1], cases)
            }
        }
    }

    // The members of a storey, whose S line is at the place `storey`: as many as there are rows.
    fn fill_members(&self, rows: &mut [Member], storey: Place)
        requires small { (storey.storeys ≤ 9) × (storey.members + length rows.old ≤ 2000) }
        requires sound { MembersSound (form_number self.now.form) self.now.bytes.now storey.storeys storey.members (length rows.old) }
        ensures { rows.new ≡ listed (λ (j : ℕ). member_at (form_number self.now.form) self.now.bytes.now (line_start (form_number self.now.form) (storey.storeys + 1) (storey.members + j))) (length rows.old) }
    {
        for (j, row) in rows.iter_mut().enumerate() {
            let place = Place {
                storeys: storey.storeys + 1,
                members: storey.members + j,
            };
            *row = self.member_at(place);
        }
    }

    // The storeys, as many as there are rows, and their members.
    pub(crate) fn fill(&self, storeys: &mut [Storey], members: &mut [Member])
        requires fits { Fits (form_number self.now.form) self.now.bytes.now (length storeys.old) }
        requires members { members_before (form_number self.now.form) self.now.bytes.now (length storeys.old) ≤ length members.old }
        ensures storeys { storeys.new ≡ listed (storey (form_number self.now.form) self.now.bytes.now) (length storeys.old) }
        ensures members { members.new ≡ filled_members (form_number self.now.form) self.now.bytes.now (length storeys.old) members.old }
    {
        let mut m = 0;
        for (i, row) in storeys.iter_mut().enumerate() {
            let place = Place {
                storeys: i,
                members: m,
            };
            let storey = self.storey_at(place);
            *row = storey;
            let end = m + storey.member_count();
            self.fill_members(&mut members[m..end], place);
            m = end;
        }
    }
}

// The form of a survey.
ghost use Rattle.std.specs.Prelude.{◌≡◌};
ghost use Rattle.records.specs.Forms.{Formed, form_number};
ghost use Rattle.records.specs.Records.{case_count, member_kind, storey_kind};

use crate::refusal::Refusal;
use crate::{CASES, Kind};

// One load case, or four; a header tells the form by its number.
#[derive(Clone, Copy)]
pub enum Form {
    Old = 1,
    FourCases = 2,
}

impl TryFrom<u64> for Form {
    type Error = Refusal;

    ghost try_from_gives = { Formed };

    fn try_from(number: u64) -> Result<Form, Refusal> {
        match number {
            1 => Ok(Form::Old),
            2 => Ok(Form::FourCases),
            _ => Err(Refusal::OutOfRange),
        }
    }
}

impl Form {
    pub fn number(self) -> u64
        ensures { result ≡ form_number self }
    {
        self as u64
    }

    // How many load cases a form has.
    pub fn case_count(self) -> usize
        ensures { result ≡ case_count (form_number self) }
    {
        match self {
            Form::Old => 1,
            Form::FourCases => CASES,
        }
    }

    // The kind of its S lines, and of its M lines.
    pub fn storey_kind(self) -> Kind
        ensures { result ≡ storey_kind (form_number self) }
    {
        match self {
            Form::Old => Kind::S,
            Form::FourCases => Kind::S4,
        }
    }

    pub fn member_kind(self) -> Kind
        ensures { result ≡ member_kind (form_number self) }
    {
        match self {
            Form::Old => Kind::M,
            Form::FourCases => Kind::M4,
        }
    }
}

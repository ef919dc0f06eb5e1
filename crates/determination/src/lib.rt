// From the bytes of a survey file to the bytes of the sheet, or of the `E` line (document 01, "The printed sheet"). The length of the longest input and the numbers
// of rows that are lent are given here, and nowhere below.
#![tactic(auto)]

ghost use Rattle.std.specs.Prelude.{◌≡◌, length, Some, None};
ghost use Rattle.columns.specs.Line.{at_front, put_length};
ghost use Rattle.determination.specs.Determination.{printed};
ghost use Rattle.determination.specs.Outcome.{Determined};

use checks::Survey;
use reading::rows::read;
use reading::survey::LineRefusal;
use records::form::Form;
use records::refusal::Refusal;
use records::{CASES, FIELDS_MOST, Member, Storey};
use report::refusal_line::write_refusal;
use report::sheet::write_report;
use report::{BUILDING_LINE_SIZE, MEMBER_CASE_LINE_SIZE, STOREY_CASE_LINE_SIZE};

// The longest input.
pub const INPUT_MOST: usize = 65_536;

// The rows that are lent.
pub const STOREY_ROWS: usize = 10;

pub const MEMBER_ROWS: usize = 320;

// The longest sheet of these rows: that of four load cases.
pub const SHEET_MOST: usize = CASES
    * (MEMBER_CASE_LINE_SIZE * MEMBER_ROWS + STOREY_CASE_LINE_SIZE * STOREY_ROWS)
    + BUILDING_LINE_SIZE;

// Why there is no sheet, and the line of the file, where the refusal has one.
struct Refused {
    refusal: Refusal,
    line: Option<u64>,
}

impl From<Refusal> for Refused {
    ghost from_gives = { λ refusal refused. refused ≡ record { refusal = refusal; line = None } };

    fn from(refusal: Refusal) -> Refused {
        Refused {
            refusal,
            line: None,
        }
    }
}

impl From<LineRefusal> for Refused {
    ghost from_gives = { λ of_file refused. refused ≡ record { refusal = of_file.refusal; line = Some of_file.line } };

    fn from(of_file: LineRefusal) -> Refused {
        Refused {
            refusal: of_file.refusal,
            line: Some(of_file.line),
        }
    }
}

// The sheet of a survey file, from the front of the bytes: its length, or why there is none.
fn write_sheet(input: &[u8], out: &mut [u8]) -> Result<usize, Refused>
    ensures { Determined input.now out.old out.new result }
{
    if INPUT_MOST < input.len() {
        return Err(Refusal::TooLarge.into());
    }
    let mut storeys = [Storey::of(Form::Old, &[0; FIELDS_MOST]); STOREY_ROWS];
    let mut members = [Member::of(&[0; FIELDS_MOST]); MEMBER_ROWS];
    let filled = read(input, &mut storeys, &mut members)?;
    let survey = Survey {
        header: filled.header,
        storeys: &storeys[..filled.storeys],
        members: &members[..filled.members],
    };
    Ok(write_report(&survey, out)?)
}

// The sheet of a survey file, or its `E` line, from the front of the bytes; gives its length. Where the line does not fit, nothing and 0.
pub fn determine(input: &[u8], out: &mut [u8]) -> usize
    ensures value { result ≡ put_length (printed input.now (length out.old)) (length out.old) }
    ensures out_after { out.new ≡ at_front (printed input.now (length out.old)) out.old }
{
    match write_sheet(input, out) {
        Ok(length) => length,
        Err(Refused { refusal, line }) => {
            write_refusal(out, refusal.number(), line.unwrap_or(0))
        }
    }
}

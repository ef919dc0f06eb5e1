// A cursor over the bytes of a file: it takes a line field by field.
ghost use Rattle.std.specs.Prelude.{◌≡◌, true, false, ◌+◌, ◌≤◌, length, take, drop, ok_or};
ghost use Rattle.format.specs.Spelling.{minus_of, field_of};

use crate::spelling::{digits, spells, with_column};
use records::ZERO_FORCE;
use records::refusal::Refusal;

#[derive(Clone, Copy)]
pub struct Cursor {
    pub at: usize,
}

// The number of columns that hold no minus: blanks, and a number after them.
fn plain_number(columns: &[u8; 8]) -> Option<u64>
    ensures { result ≡ field_of false columns.now }
{
    let [b' ', middle @ .., last] = columns.as_slice() else {
        return None;
    };
    let mut number = 0;
    for column in middle {
        number = with_column(number, *column, false)?;
    }
    with_column(number, *last, true)
}

// The number of columns with a minus, counted from -20,000,000.
fn minus_number(columns: &[u8; 8]) -> Option<u64>
    ensures { result ≡ minus_of columns.now }
{
    let n = digits(columns);
    if n != 0 && columns[0] == b' ' && spells(columns, b'-', n) {
        Some(ZERO_FORCE - n)
    } else {
        None
    }
}

// The number of a field's columns; N_D and N_K are counted from -20,000,000.
fn number_of(columns: &[u8; 8], force: bool) -> Option<u64>
    ensures { result ≡ field_of force columns.now }
{
    let plain = plain_number(columns);
    if !force {
        return plain;
    }
    match plain {
        Some(n) => Some(ZERO_FORCE + n),
        None => minus_number(columns),
    }
}

impl Cursor {
    // The number that the field at the cursor holds, or its refusal, with the cursor after it.
    pub(crate) fn field(self, s: &[u8], force: bool) -> (Result<u64, Refusal>, Cursor)
        requires { self.at + 8 ≤ length s.now }
        ensures field { result.0 ≡ ok_or (field_of force (take 8 (drop self.at s.now))) Refusal.Spelling }
        ensures next { result.1.at ≡ self.at + 8 }
    {
        let end = self.at + 8;
        let columns = s[self.at..end].as_array().unwrap();
        (
            number_of(columns, force).ok_or(Refusal::Spelling),
            Cursor { at: end },
        )
    }
}

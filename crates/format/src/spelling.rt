// The spelling of a number in columns.
ghost use Rattle.std.specs.Prelude.{◌≡◌, ◌<◌, ◌&&◌, length, replicate, Some, None, leb};
ghost use Rattle.records.specs.Notation.{pick};
ghost use Rattle.format.specs.Spelling.{spelled, same, pushed, value};
ghost use Rattle.format.specs.Steps.{continues};

// The digits of a number over the last of some blank columns, its sign before them.
fn put_digits(columns: &mut [u8], sign: u8, n: u64)
    requires { columns.old ≡ replicate (length columns.old) 32 }
    ensures { columns.new ≡ spelled (length columns.old) sign n }
{
    let mut rest = n;
    for i in (0..columns.len()).rev() {
        columns[i] = b'0' + (rest % 10) as u8;
        if rest < 10 {
            if 0 < i {
                columns[i - 1] = sign;
            }
            return;
        }
        rest /= 10;
    }
}

// A number in some columns: blanks, its sign directly before its digits. One wider than the columns shows its last digits.
pub fn put_number(columns: &mut [u8], sign: u8, n: u64)
    ensures { columns.new ≡ spelled (length columns.old) sign n }
{
    columns.fill(b' ');
    put_digits(columns, sign, n);
}

// The eight columns spell n.
#[tactic(auto, using(crate::proofs::Columns::same_pointwise))]
pub(crate) fn spells(columns: &[u8; 8], sign: u8, n: u64) -> bool
    ensures { result ≡ same columns.now (spelled 8 sign n) }
{
    let mut spelling = [0; 8];
    put_number(&mut spelling, sign, n);
    *columns == spelling
}

// The number with one more digit; none where the column is no digit.
fn with_digit(number: u64, column: u8) -> Option<u64>
    requires { number < 100_000_000 }
    ensures { result ≡ pick (leb 48 column && leb column 57) (Some (pushed number column)) None }
{
    match column {
        b'0'..=b'9' => Some(number * 10 + u64::from(column - b'0')),
        _ => None,
    }
}

// The number with one more column, after columns that make `number` and are blanks where that is 0; none where the column may not follow them: a number's first digit
// is no 0 unless it is its last.
pub(crate) fn with_column(number: u64, column: u8, last: bool) -> Option<u64>
    requires { number < 100_000_000 }
    ensures { result ≡ pick (continues number column last) (Some (pushed number column)) None }
{
    if last || number != 0 {
        return with_digit(number, column);
    }
    match column {
        b' ' => Some(0),
        b'1'..=b'9' => Some(u64::from(column - b'0')),
        _ => None,
    }
}

// The number with one more column; one that is no digit is passed over.
fn push(number: u64, column: u8) -> u64
    requires { number < 100_000_000 }
    ensures { result ≡ pushed number column }
{
    with_digit(number, column).unwrap_or(number)
}

// The number that the digits among eight columns make.
pub(crate) fn digits(columns: &[u8; 8]) -> u64
    ensures value { result ≡ value 0 columns.now }
    ensures small { result < 100_000_000 }
{
    let mut number = 0;
    for column in columns {
        number = push(number, *column);
    }
    number
}

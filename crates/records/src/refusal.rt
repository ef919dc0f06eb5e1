// Why a survey or a call is refused.
ghost use Rattle.std.specs.Prelude.{◌≡◌};
ghost use Rattle.records.specs.Refusals.{refusal_number};

// Each refusal has its number of docs/REFUSALS.md; 10 and 13 are not used.
#[derive(Clone, Copy)]
pub enum Refusal {
    // a line that is not of the kind or length due there, or absent; a count that is not the rows given
    Structure = 1,
    // a field that is not written as it must be
    Spelling = 2,
    OutOfRange = 3,
    // the short side above the long side
    SidesExchanged = 4,
    NumberRepeated = 5,
    // bytes after the last line
    TrailingBytes = 6,
    NotLowRise = 7,
    // more records than the lent rows hold, or a longer input than is read
    TooLarge = 8,
    SheetTooLong = 9,
    FileTooLong = 11,
    // D lines not numbered 1, 2, 3, 4
    CaseMisnumbered = 12,
    // a map coefficient or a period for which there is no spectrum
    OutsideMap = 14,
}

impl Refusal {
    pub fn number(self) -> u64
        ensures { result ≡ refusal_number self }
    {
        self as u64
    }
}

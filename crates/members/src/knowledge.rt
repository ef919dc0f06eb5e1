// The knowledge level of a survey.
ghost use Rattle.std.specs.Prelude.{◌≡◌, true, false, MatchResult};
ghost use Rattle.records.specs.declared.refusal.Refusal.TheVariants.{OutOfRange};
ghost use Rattle.members.specs.Finding.{knowledge};

use records::refusal::Refusal;

// k in hundredths: 90, minimum, or 100, full.
#[derive(Clone, Copy)]
pub struct Knowledge {
    pub hundredths: u64,
    ghost known: { knowledge hundredths ≡ true },
}

impl TryFrom<u64> for Knowledge {
    type Error = Refusal;

    ghost try_from_gives = { λ k r. MatchResult r (λ level. level.hundredths ≡ k) (λ e. (e ≡ OutOfRange) × (knowledge k ≡ false)) };

    fn try_from(k: u64) -> Result<Knowledge, Refusal> {
        match k {
            90 | 100 => Ok(Knowledge { hundredths: k }),
            _ => Err(Refusal::OutOfRange),
        }
    }
}

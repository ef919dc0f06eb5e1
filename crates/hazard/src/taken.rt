// The map coefficients and the period that the calls take; others are refused.
ghost use Rattle.std.specs.Prelude.{◌≡◌, true};
ghost use Rattle.hazard.specs.Refusals.{in_map, period_taken};

use crate::site::Motion;
use records::refusal::Refusal;

const MAP_MOST: u64 = 999;

const PERIOD_MOST: u64 = 99_999;

// A level of ground motion with both coefficients within the map's range.
#[derive(Clone, Copy)]
pub(crate) struct MapMotion {
    pub motion: Motion,
    ghost in_range: { in_map motion ≡ true },
}

impl TryFrom<Motion> for MapMotion {
    type Error = Refusal;

    ghost use Rattle.hazard.specs.Codes.{Mapped};

    ghost try_from_gives = { Mapped };

    fn try_from(motion: Motion) -> Result<MapMotion, Refusal> {
        let map = 1..=MAP_MOST;
        if map.contains(&motion.ss) && map.contains(&motion.s1) {
            Ok(MapMotion { motion })
        } else {
            Err(Refusal::OutsideMap)
        }
    }
}

// A period that is not too long, in milliseconds.
#[derive(Clone, Copy)]
pub(crate) struct Period {
    pub milliseconds: u64,
    ghost in_range: { period_taken milliseconds ≡ true },
}

impl TryFrom<u64> for Period {
    type Error = Refusal;

    ghost use Rattle.hazard.specs.Codes.{Timed};

    ghost try_from_gives = { Timed };

    fn try_from(milliseconds: u64) -> Result<Period, Refusal> {
        if milliseconds <= PERIOD_MOST {
            Ok(Period { milliseconds })
        } else {
            Err(Refusal::OutsideMap)
        }
    }
}

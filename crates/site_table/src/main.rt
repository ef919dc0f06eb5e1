// The program: prints the site coefficients F_S and F_1 in thousandths, a number to a line (document 02, N8), each computed from the published columns of document 001.
#![tactic(auto)]

ghost use Rattle.std.specs.Prelude.{◌≡◌, ◌+◌, ◌-◌, ◌*◌, ◌/◌, ◌%◌, ◌≤◌, ◌<◌, min};
ghost use Rattle.hazard.specs.Entries.{Entry};
ghost use Rattle.site_table.specs.Weighed.{weighed};

use std::io;

// A table as it is printed: the coefficients of ZA to ZE in tenths at six columns, and how far these stand apart, in hundredths.
#[derive(Drop)]
struct Table {
    rows: [[u8; 6]; 5],
    gap: usize,
    ghost apart: { 0 < gap },
    ghost near: { gap ≤ 100 },
}

// Table 2.3: F_S at S_S 0.25, 0.50, 0.75, 1.00, 1.25 and 1.50.
const SHORT_PERIOD: Table = Table {
    rows: [
        [8, 8, 8, 8, 8, 8],
        [9, 9, 9, 9, 9, 9],
        [13, 13, 12, 12, 12, 12],
        [16, 14, 12, 11, 10, 10],
        [24, 17, 13, 11, 9, 8],
    ],
    gap: 25,
};

// Table 2.4: F_1 at S_1 0.10, 0.20, 0.30, 0.40, 0.50 and 0.60.
const ONE_SECOND: Table = Table {
    rows: [
        [8, 8, 8, 8, 8, 8],
        [8, 8, 8, 8, 8, 8],
        [15, 15, 15, 15, 15, 14],
        [24, 22, 20, 19, 18, 17],
        [42, 33, 28, 24, 22, 20],
    ],
    gap: 10,
};

// How many numbers come of each table.
const SHORT_NUMBERS: usize = 5 * (5 * SHORT_PERIOD.gap + 1);

const LONG_NUMBERS: usize = 5 * (5 * ONE_SECOND.gap + 1);

impl Table {
    // The column at or before a place so many hundredths past the first column; the last but one at the last.
    fn column(&self, past: usize) -> usize
        requires { past ≤ 5 * self.now.gap }
        ensures value { result ≡ min 4 (past / self.now.gap) }
        ensures before { result * self.now.gap ≤ past }
        ensures near { past ≤ result * self.now.gap + self.now.gap }
    {
        (past / self.gap).min(4)
    }

    // Between two neighbouring columns, in thousandths: each weighed by the distance to the other.
    fn between(&self, left: u8, right: u8, beyond: usize) -> usize
        requires { beyond ≤ self.now.gap }
        ensures { result ≡ (left * (self.now.gap - beyond) + right * beyond) * 100 / self.now.gap }
    {
        let left = usize::from(left);
        let right = usize::from(right);
        (left * (self.gap - beyond) + right * beyond) * 100 / self.gap
    }

    // Number j of those of the table, counted from 0: class by class, at each hundredth from the first column to the last.
    #[tactic(auto, unfolding(crate::specs::Weighed::weighed))]
    fn number(&self, j: usize) -> usize
        requires { j < 5 * (5 * self.now.gap + 1) }
        ensures { result ≡ weighed self.now.rows self.now.gap (j / (5 * self.now.gap + 1)) (j % (5 * self.now.gap + 1)) }
    {
        let count = 5 * self.gap + 1;
        let past = j % count;
        let column = self.column(past);
        let row = &self.rows[j / count];
        self.between(row[column], row[column + 1], past - column * self.gap)
    }
}

// Number k of those printed, counted from 0: class by class from ZA to ZE, at each hundredth of S_S from 0.25 to 1.50, then likewise of S_1 from 0.10 to 0.60.
fn coefficient(k: usize) -> usize
    requires { k < 885 }
    ensures { Entry k result }
{
    if k < SHORT_NUMBERS {
        SHORT_PERIOD.number(k)
    } else {
        ONE_SECOND.number(k - SHORT_NUMBERS)
    }
}

// A number to a line.
fn print_all(rt: &impl Print) -> io::Result<()> {
    for k in 0..SHORT_NUMBERS + LONG_NUMBERS {
        println!(rt; "{}", coefficient(k))?;
    }
    Ok(())
}

// Where a write fails, the program ends.
fn main(rt: HostRuntime) {
    let _ = print_all(&rt);
}

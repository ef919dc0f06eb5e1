// The units of document 01, "Member": each type holds its own number, its grid and its rounding.
ghost use Rattle.std.specs.Prelude.{◌≡◌, ◌^◌, ◌<◌, ◌≤◌};
ghost use Rattle.members.specs.Units.{ratio_up, hoop_down, ratio_steps};
ghost use Rattle.members.specs.Sizes.{micro_down};

// n, n_D, m, v and the limits of m: hundred-thousandths.
#[derive(Clone, Copy)]
pub struct Ratio(pub u64);

// The hoop ratio ρ: millionths.
#[derive(Clone, Copy)]
pub struct HoopRatio(pub u64);

// A rotation and its limit. Its cap is the most that the field of a rotation holds: no limit reaches it.
#[derive(Clone, Copy)]
pub struct Microradians(pub u64);

impl Ratio {
    pub const SCALE: u64 = 100_000;

    pub const CAP: u64 = 9_999_999;

    // num / den on the grid, rounded up and capped.
    pub(crate) fn up(num: u64, den: u64) -> Ratio
        requires { (num ≤ 2 ^ 40) × (0 < den) × (den ≤ 2 ^ 50) }
        ensures { result ≡ ratio_up num den }
    {
        let steps = (num * Ratio::SCALE + (den - 1)) / den;
        Ratio(steps.min(Ratio::CAP))
    }

    // A limit of num / den steps of the grid, rounded down.
    pub(crate) fn steps(num: u64, den: u64) -> Ratio
        requires { 0 < den }
        ensures { result ≡ ratio_steps num den }
    {
        Ratio(num / den)
    }
}

impl HoopRatio {
    pub const SCALE: u64 = 1_000_000;

    pub const CAP: u64 = 999_999;

    // num / den on the grid, rounded down and capped.
    pub(crate) fn down(num: u64, den: u64) -> HoopRatio
        requires { (num ≤ 2 ^ 40) × (0 < den) }
        ensures { result ≡ hoop_down num den }
    {
        let steps = num * HoopRatio::SCALE / den;
        HoopRatio(steps.min(HoopRatio::CAP))
    }
}

impl Microradians {
    pub const SCALE: u64 = 1_000_000;

    pub const CAP: u64 = 9_999_999;

    // num / den microradians, rounded down and capped.
    pub(crate) fn steps(num: u64, den: u64) -> Microradians
        requires { 0 < den }
        ensures { result ≡ micro_down num den }
    {
        Microradians((num / den).min(Microradians::CAP))
    }
}

// The two units of angles, one turn, and the sine and cosine of any angle by document 01's table of 901 entries.
#![tactic(auto)]

ghost use Rattle.std.specs.Prelude.{◌≡◌, ◌≤◌, ◌<◌, ◌+◌, ◌-◌, pos, nat_abs, ◌+ℤ◌, ◌-ℤ◌};
ghost use Rattle.integers.specs.Range.{Within};
ghost use Rattle.angles.specs.Unit.{millionths, hundred_millionths, in_millionths, one_turn};
ghost use Rattle.angles.specs.Entry.{entry};
ghost use Rattle.angles.specs.Sines.{sine_entries};
ghost use Rattle.angles.specs.Sine.{folded, quarter_sine, half_sine, with_sign_of, rise_of, sine_of, cosine_of};

mod table;

// An angle in millionths of a degree. Its count is private to this crate, so that only named functions convert it.
#[derive(Clone, Copy, Debug, PartialEq, Eq)]
pub struct Angle(i64);

// An element of an orbit in hundred-millionths: of a degree, of an au, or of 1.
#[derive(Clone, Copy, Debug, PartialEq, Eq)]
pub struct Element(i64);

impl Angle {
    pub fn of_millionths(count: i64) -> Angle
        ensures { millionths result ≡ count }
    {
        Angle(count)
    }

    pub fn millionths(self) -> i64
        ensures { result ≡ millionths self }
    {
        self.0
    }

    // The same angle from -180 degrees up to but without 180 degrees.
    pub fn one_turn(self) -> Angle
        ensures { millionths result ≡ one_turn (millionths self) }
    {
        Angle(within_turn(self.0))
    }
}

impl Element {
    pub fn of_hundred_millionths(count: i64) -> Element
        ensures { hundred_millionths result ≡ count }
    {
        Element(count)
    }

    pub fn hundred_millionths(self) -> i64
        ensures { result ≡ hundred_millionths self }
    {
        self.0
    }

    // The difference of two elements, as of two longitudes.
    pub fn difference(self, other: Element) -> Element
        requires within { Within 4000000000000000000 (hundred_millionths self) }
        requires within_2 { Within 4000000000000000000 (hundred_millionths other) }
        ensures { hundred_millionths result ≡ hundred_millionths self -ℤ hundred_millionths other }
    {
        Element(self.0 - other.0)
    }

    // The sum of two elements, as of a mean anomaly and a further term of it.
    pub fn sum(self, other: Element) -> Element
        requires within { Within 4000000000000000000 (hundred_millionths self) }
        requires within_2 { Within 4000000000000000000 (hundred_millionths other) }
        ensures { hundred_millionths result ≡ hundred_millionths self +ℤ hundred_millionths other }
    {
        Element(self.0 + other.0)
    }

    // An element that counts degrees, as an angle: divided by 100 with floor.
    pub fn to_angle(self) -> Angle
        ensures { millionths result ≡ in_millionths (hundred_millionths self) }
    {
        Angle(integers::floor_div(self.0, 100))
    }
}

// A count of millionths of a degree, brought to one turn. No sum is taken before the division, so no count overflows.
fn within_turn(t: i64) -> i64
    ensures { result ≡ one_turn t }
{
    let r = integers::floor_mod(t, 360_000_000);
    if r < 180_000_000 { r } else { r - 360_000_000 }
}

// A quarter turn on from t, which lies in one turn.
fn quarter_on(t: i64) -> i64
    requires { t ≡ one_turn t }
    ensures { result ≡ one_turn (t +ℤ pos 90000000) }
{
    if t < 90_000_000 {
        t + 90_000_000
    } else {
        t - 270_000_000
    }
}

// A part of a half turn, folded to its first quarter. A function of its own, so that the machine chooses between two
// numbers instead of guessing a branch.
fn folded(t: u64) -> u64
    requires { t ≤ 180000000 }
    ensures { result ≡ folded t }
{
    if t < 90_000_000 { t } else { 180_000_000 - t }
}

// Document 01's table of sines. A constant is built anew wherever it is named, so an entry point makes one and lends it down.
#[derive(Drop)]
pub struct Sines {
    entries: [u32; 901],
    ghost ruled: { entries ≡ sine_entries },
}

impl Sines {
    pub fn new() -> Sines {
        Sines {
            entries: table::SINES,
        }
    }

    // Entry n of the table.
    pub fn entry(&self, n: usize) -> u64
        requires { n ≤ 900 }
        ensures { result ≡ entry n }
    {
        u64::from(self.entries[n])
    }

    // The sine of t from 0 to 90 degrees, on the line between two entries.
    pub fn quarter_sine(&self, t: u64) -> u64
        requires { t ≤ 90000000 }
        ensures { result ≡ quarter_sine t }
    {
        let k = (t / 100_000) as usize;
        if k == 900 {
            return self.entry(900);
        }
        let low = self.entry(k);
        let high = self.entry(k + 1);
        low + (high - low) * (t % 100_000) / 100_000
    }

    // The sine of t from 0 to 180 degrees.
    pub fn half_sine(&self, t: u64) -> u64
        requires { t ≤ 180000000 }
        ensures { result ≡ half_sine t }
    {
        self.quarter_sine(folded(t))
    }

    // By how much the table rises in the tenth of a degree around t, t from 0 to 180 degrees. Only guesses go by it.
    pub fn rise(&self, t: u64) -> u64
        requires { t ≤ 180000000 }
        ensures { result ≡ rise_of t }
    {
        let k = (folded(t) / 100_000) as usize;
        if k == 900 {
            return 0;
        }
        self.entry(k + 1) - self.entry(k)
    }

    // The sine of t that lies in one turn.
    fn turn_sine(&self, t: i64) -> i64
        requires { Within 180000000 t }
        ensures { result ≡ with_sign_of t (half_sine (nat_abs t)) }
    {
        integers::with_sign(t < 0, self.half_sine(integers::size(t)))
    }

    // The sine of any angle, 10^9 standing for one.
    pub fn sine(&self, angle: Angle) -> i64
        ensures { result ≡ sine_of (millionths angle) }
    {
        self.turn_sine(within_turn(angle.0))
    }

    // The cosine of any angle.
    pub fn cosine(&self, angle: Angle) -> i64
        ensures { result ≡ cosine_of (millionths angle) }
    {
        self.turn_sine(quarter_on(within_turn(angle.0)))
    }
}

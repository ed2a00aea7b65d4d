// Dates: a Julian date or whole minutes, the exact minute that a date comes to, its test against an interval, the test of a step
// between dates, and what a rate a century comes to in so many minutes. The minute comes first and the test after it, so that
// a refusal can stand between them.
#![tactic(auto)]

ghost use Rattle.std.specs.Prelude.{◌≡◌, ◌^◌, Some};
ghost use Rattle.std.specs.Float.{binary64};
ghost use Rattle.std.specs.Float.Ieee.{of_fields};
ghost use Rattle.integers.specs.Floor.{rounded};
ghost use Rattle.dates.specs.Minute.{minute_of_julian, minute_of, drift_of};
ghost use Rattle.dates.specs.Moment.{is_step, moment_at};
ghost use Rattle.dates.specs.Reach.{clamped, held, Held, InReach, NearFields, RoundFits, DriftFits};

use refusals::Refusal;

// A date is given either as a Julian date, a double, or as whole minutes from JD 2451545.0.
#[derive(Clone, Copy, Debug)]
pub enum Date {
    Julian(f64),
    Minutes(i64),
}

// The minutes from the first to the last, both accepted.
#[derive(Clone, Copy, Debug, PartialEq, Eq)]
pub struct Interval {
    pub first: i64,
    pub last: i64,
}

// JD 2451545.0 in minutes: 2,451,545 days of 1,440.
const EPOCH: i64 = 3_530_224_800;

// No interval reaches as far as this, 190 million years, so that a minute beyond it need not be known.
const FAR: i64 = 100_000_000_000_000;

// floor(a / 2^v + 1/2): the machine's shift of a signed number is a floor.
fn rounded(a: i64, v: u64) -> i64
    requires { RoundFits a v }
    ensures { result ≡ rounded a (2 ^ v) }
{
    let unit = (1u64 << v) as i64;
    (2 * a + unit) >> (v + 1)
}

// The minute of a double of these fields. Its 1440 d is 45 (2^52 + t) / 2^(1070 - x), in which 1440 is 45 times 2^5. Below
// 2^-12 days, where the leading 2^52 may be missing, it is less than half a minute from JD 0.0.
fn minute_of_fields(negative: bool, x: u64, t: u64) -> i64
    requires { NearFields x t }
    ensures { minute_of_julian (of_fields binary64 negative x t) ≡ Some result }
{
    if x < 1011 {
        return 0 - EPOCH;
    }
    let parts = 45 * (0x10_0000_0000_0000 + t);
    rounded(integers::with_sign(negative, parts), 1070 - x) - EPOCH
}

// A minute beyond FAR either way is put on that end.
fn clamped(m: i64) -> i64
    ensures { result ≡ clamped m }
{
    m.clamp(-FAR, FAR)
}

// The minute of a Julian date, by its bits: the sign, 11 bits of exponent and 52 of digits. One of 2^48 days or more is far.
fn minute_of_julian(d: f64) -> Option<i64>
    ensures { result ≡ held (minute_of_julian d) }
{
    if d.is_nan() {
        return None; // its bits are not known
    }
    let b = d.to_bits();
    let x = (b >> 52) & 0x7ff;
    let t = b & 0xf_ffff_ffff_ffff;
    if x == 0x7ff {
        return None; // an infinity
    }
    let negative = 0x8000_0000_0000_0000 <= b;
    if 1070 < x {
        return Some(integers::with_sign(negative, 100_000_000_000_000));
    }
    Some(clamped(minute_of_fields(negative, x, t)))
}

// The minute of a date of either form.
// Only a Julian date that is not finite has none.
pub fn minute_of(date: Date) -> Option<i64>
    ensures { result ≡ held (minute_of date) }
{
    match date {
        Date::Julian(d) => minute_of_julian(d),
        Date::Minutes(m) => Some(clamped(m)),
    }
}

// A minute and an offset, tested against an interval: refusal 1, then 2.
pub fn moment_at(interval: Interval, minute: Option<i64>, offset: i64) -> Result<i64, Refusal>
    requires in_reach { InReach interval offset }
    requires held { Held minute }
    ensures { result ≡ moment_at interval minute offset }
{
    let Some(start) = minute else {
        return Err(Refusal::NotFinite);
    };
    let m = start + offset;
    if !integers::is_from_to(interval.first, interval.last, m) {
        return Err(Refusal::OutsideInterval);
    }
    Ok(m)
}

// Whether dates may follow each other by this many minutes, in a sheet or a search: refusal 10's test of a step.
pub fn is_step(step: i64) -> bool
    ensures { result ≡ is_step step }
{
    integers::is_from_to(1, 1_000_000, step)
}

// floor(rate m / 52,596,000): what a rate a century comes to in m minutes. The product may be past 64 bits.
pub fn drift(rate: i64, m: i64) -> i64
    requires { DriftFits rate m }
    ensures { result ≡ drift_of rate m }
{
    integers::mul_div(rate, m, 52_596_000)
}

// Kepler's equation in whole numbers: the eccentric anomaly that leaves the least error, for every mean anomaly.
// The search keeps a bracket that is proved; how it guesses inside it matters for speed alone.
#![tactic(auto)]

ghost use Rattle.std.specs.Prelude.{◌≡◌, ◌<◌, ◌≤◌, ◌+◌, ◌-◌, pos};
ghost use Rattle.integers.specs.Range.{apart};
ghost use Rattle.angles.specs.Unit.{millionths, hundred_millionths};
ghost use Rattle.kepler.specs.Equation.{Solves, Candidate};
ghost use Rattle.kepler.specs.Eccentric.{angle_at, eccentric};
ghost use Rattle.kepler.specs.Answer.{solved_of, Answers};
ghost use Rattle.kepler.specs.Search.{raised, point_of, Nearest};

use angles::{Angle, Element, Sines};
use refusals::Refusal;

// What is left of grid point n past half a turn.
fn past_half(n: u64) -> u64
    requires { n ≤ 360000000 }
    ensures value { n ≤ 180000000 → result ≡ n }
    ensures value_2 { 180000000 < n → result ≡ n - 180000000 }
    ensures upper_bound { result ≤ 180000000 }
{
    if n <= 180_000_000 { n } else { n - 180_000_000 }
}

fn outer_half(n: u64) -> bool {
    n < 90_000_000 || 270_000_000 <= n
}

// Where the tangent at g meets the target. Any number may come of it.
fn tangent(g: u64, f: u64, slope: u64, target: u64) -> u64
    requires g_bound { g ≤ 360000000 }
    requires target_bound { target < 360000000000000000 }
    requires le_slope { 1 ≤ slope }
{
    if f <= target {
        g + (target - f) / slope
    } else {
        let d = (f - target - 1) / slope;
        if d < g { g - d - 1 } else { 0 }
    }
}

// A grid point strictly inside the bracket: the guess, brought there, or the middle once the guesses are spent.
fn inside(lo: u64, hi: u64, guess: u64, left: u64) -> u64
    requires { lo + 1 < hi }
    ensures { (lo < result) × (result < hi) }
{
    if left == 0 {
        return lo + (hi - lo) / 2;
    }
    guess.clamp(lo + 1, hi - 1)
}

// Kepler's equation of an ellipse, over the lent table of sines. `es` is e*, the eccentricity of at most 0.9 in degrees.
#[derive(Clone, Copy)]
pub struct Equation<'a> {
    pub sines: &'a Sines,
    pub es: u64,
    ghost es_bound: { es ≤ 51566202 },
}

impl<'a> Equation<'a> {
    // F at grid point n, raised so that it is not negative.
    fn raised(&self, n: u64) -> u64
        requires { n ≤ 360000000 }
        ensures { result ≡ raised self.now.es n }
    {
        let p = self.es * self.sines.half_sine(past_half(n));
        if n <= 180_000_000 {
            1_000_000_000 * n + p
        } else {
            1_000_000_000 * n - p
        }
    }

    // How steep F is around grid point n. Only a guess goes by it: it says no more than that one can divide by it.
    fn slope(&self, n: u64) -> u64
        requires { n ≤ 360000000 }
        ensures { 1 ≤ result }
    {
        let d = self.es * self.sines.rise(past_half(n)) / 100_000;
        if outer_half(n) {
            1_000_000_000 + d
        } else {
            1_000_000_000 - d
        }
    }

    // 002's first guess, (8-36): E = M + e* sin M, which is 2 M - F(M) / 10^9.
    fn first_guess(&self, target: u64) -> u64
        requires { target < 360000000000000000 }
    {
        let m = target / 1_000_000_000;
        let f = self.raised(m) / 1_000_000_000;
        if f <= 2 * m { 2 * m - f } else { m }
    }

    // The grid point at which F is nearest to the target, found from a first guess. Whatever that is, the answer is the same.
    pub fn nearest(&self, target: u64, first: u64) -> u64
        requires { target < 360000000000000000 }
        ensures nearest { Nearest (raised self.now.es) 360000000 target result }
        ensures result_bound { apart target (raised self.now.es result) < 1000000000 }
    {
        let mut lo = 0;
        let mut hi = 360_000_000;
        let mut low = 0;
        let mut high = 360_000_000_000_000_000;
        let mut guess = first;
        let mut left: u64 = 12;
        while hi - lo > 1 {
            let g = inside(lo, hi, guess, left);
            let a = self.raised(g);
            let b = self.raised(g + 1);
            guess = tangent(g, a, self.slope(g), target);
            left = left.saturating_sub(1);
            if target < a {
                hi = g;
                high = a;
            } else if target < b {
                lo = g;
                low = a;
                hi = g + 1;
                high = b;
            } else {
                lo = g + 1;
                low = b;
            }
        }
        if target - low <= high - target {
            lo
        } else {
            hi
        }
    }
}

// The grid point of an angle, counted from half a turn below.
fn grid_point(m: i64) -> u64
    requires { Candidate m }
    ensures { result ≡ point_of m }
{
    (m + 180_000_000) as u64
}

fn angle_at(n: u64) -> i64
    requires { n ≤ 360000000 }
    ensures { result ≡ angle_at n }
{
    (n as i64) - 180_000_000
}

// The eccentric anomaly at an eccentricity from 0 to 0.9.
pub fn eccentric(sines: &Sines, e: u64, mean: Angle) -> Angle
    requires { e ≤ 90000000 }
    ensures result_value { millionths result ≡ eccentric (pos e) (millionths mean) }
    ensures solves { Solves (pos e) (millionths mean) (millionths result) }
{
    let es = e * 57_295_780 / 100_000_000;
    let m = mean.one_turn().millionths();
    let target = 1_000_000_000 * grid_point(m);
    let equation = Equation { sines, es };
    let n = equation.nearest(target, equation.first_guess(target));
    Angle::of_millionths(angle_at(n))
}

// The eccentric anomaly of any mean anomaly at any eccentricity, or refusal 7.
pub fn solve(sines: &Sines, e: Element, mean: Angle) -> Result<Angle, Refusal>
    ensures value { result ≡ solved_of (hundred_millionths e) (millionths mean) }
    ensures answers { Answers (hundred_millionths e) (millionths mean) result }
{
    let count = e.hundred_millionths();
    if !integers::is_from_to(0, 90_000_000, count) {
        return Err(Refusal::NoEllipse);
    }
    Ok(eccentric(sines, count as u64, mean))
}

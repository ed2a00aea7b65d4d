// Viewing nights: the first date of a walk on which a planet is at opposition or inferior conjunction. One sine table is lent for the
// whole walk, and each date's places are worked out once.
#![tactic(auto)]

ghost use Rattle.std.specs.Prelude.{◌≡◌, ◌+◌, ◌≤◌, true, false, Err, MatchResult};
ghost use Rattle.refusals.specs.declared.Refusal.TheVariants.{NoSuchBody};
ghost use Rattle.std.specs.Option.{MatchOption};
ghost use Rattle.integers.specs.First.{first_picked};
ghost use Rattle.integers.specs.Range.{Within};
ghost use Rattle.integers.specs.Sign.{opposite_signs};
ghost use Rattle.integers.specs.Triple.{PartsWithin};
ghost use Rattle.tables.specs.Bodies.{body_number};
ghost use Rattle.viewing.specs.Hit.{plane_dot, plane_cross, aspect_at, hit_if, minute_at, is_hit};
ghost use Rattle.viewing.specs.Span.{SpanFits};
ghost use Rattle.viewing.specs.Viewing.{is_search, span_moment, is_planet, ended, found_at, viewing_if, viewing_answer};

use angles::Sines;
use dates::Date;
use refusals::Refusal;
use tables::{Body, Moment};

// How a planet and the Earth stand to each other, seen from the Sun in the plane of HAE: the dot and the cross product of x and y.
#[derive(Clone, Copy, Debug, PartialEq, Eq)]
pub struct Aspect {
    pub dot: i64,
    pub cross: i64,
}

// How many dates were looked at; and the minute of the hit, or the refusal.
#[derive(Clone, Copy, Debug, PartialEq, Eq)]
pub struct Search {
    pub looked: usize,
    pub found: Result<i64, Refusal>,
}

// The dot product of two places in the plane of HAE.
fn plane_dot(p: [i64; 3], e: [i64; 3]) -> i64
    requires { PartsWithin 1000000000 p × PartsWithin 1000000000 e }
    ensures { result ≡ plane_dot p e }
{
    p[0] * e[0] + p[1] * e[1]
}

// Their cross product.
fn plane_cross(p: [i64; 3], e: [i64; 3]) -> i64
    requires { PartsWithin 1000000000 p × PartsWithin 1000000000 e }
    ensures { result ≡ plane_cross p e }
{
    p[0] * e[1] - p[1] * e[0]
}

// The aspect of a body at a moment.
fn aspect_at(sines: &Sines, moment: Moment, body: Body) -> Aspect
    ensures { result ≡ aspect_at moment.table (body_number body) moment.minute }
{
    let planet = orbits::place_at(sines, moment, body);
    let earth = orbits::place_at(sines, moment, Body::Earth);
    Aspect {
        dot: plane_dot(planet, earth),
        cross: plane_cross(planet, earth),
    }
}

// A walk of dates: the minute of the first, the minutes from one to the next, and how many. Each is a minute of the table's interval.
#[derive(Clone, Copy, Debug)]
struct Walk {
    table: i64,
    first: i64,
    step: i64,
    count: usize,
    ghost fits: { SpanFits table first step count },
}

impl Walk {
    // The minute of date k, counted from 0.
    fn minute(self, k: usize) -> i64
        requires { k ≤ 4000 }
        ensures { result ≡ minute_at self.first self.step k }
    {
        self.first + self.step * (k as i64)
    }
}

// Whether a date of this aspect is a hit, after one of this cross product.
fn is_hit(before: i64, aspect: Aspect) -> bool
    ensures { result ≡ hit_if (opposite_signs aspect.cross before) aspect }
{
    let cross = aspect.cross;
    (0 < aspect.dot) & ((cross == 0) | integers::opposite_signs(cross, before))
}

// How many dates pass before the first hit, if there is one. Before the first date stands a cross product of 0, which is opposite to nothing.
fn first_hit(sines: &Sines, walk: Walk, planet: Body) -> Option<usize>
    ensures { MatchOption result
        (first_picked (is_hit walk.table (body_number planet) walk.first walk.step) walk.count ≡ 0)
        (λ k. first_picked (is_hit walk.table (body_number planet) walk.first walk.step) walk.count ≡ k + 1) }
{
    let mut before = 0;
    for k in 0..walk.count {
        let moment = Moment {
            table: walk.table,
            minute: walk.minute(k),
        };
        let aspect = aspect_at(sines, moment, planet);
        if is_hit(before, aspect) {
            return Some(k);
        }
        before = aspect.cross;
    }
    None
}

fn is_search(step: i64, count: i64) -> bool
    ensures { result ≡ is_search step count }
{
    dates::is_step(step) & integers::is_from_to(1, 4_000, count)
}

// The planet of a number to look for, or refusal 3: there is no looking for the Earth itself.
fn planet_of(number: i64) -> Result<Body, Refusal>
    ensures { MatchResult result
        (λ planet. (body_number planet ≡ number) × (is_planet number ≡ true))
        (λ refusal. (refusal ≡ NoSuchBody) × (is_planet number ≡ false)) }
{
    let body = Body::try_from(number)?;
    if body == Body::Earth {
        return Err(Refusal::NoSuchBody);
    }
    Ok(body)
}

// The minute of the span's first date, if its last one is accepted too; or refusal 1, 11 or 2.
fn span_moment(start: Date, table: i64, step: i64, count: i64) -> Result<i64, Refusal>
    requires { Within 1000000 step × Within 4000 count }
    ensures { result ≡ span_moment start table step count }
{
    let first = tables::moment_after(start, table, 0)?;
    tables::moment_after(start, table, step * (count - 1))?;
    Ok(first)
}

// A search that is refused before any date is looked at.
fn none_looked_at(refusal: Refusal) -> Search
    ensures { result ≡ ended (Err refusal) 0 }
{
    Search {
        looked: 0,
        found: Err(refusal),
    }
}

// The answer of a search for a planet on a walk; refusal 12 where there is no hit.
fn search_for(walk: Walk, planet: Body) -> Search
    ensures { result ≡ found_at walk.first walk.step walk.count (first_picked (is_hit walk.table (body_number planet) walk.first walk.step) walk.count) }
{
    let sines = Sines::new();
    match first_hit(&sines, walk, planet) {
        Some(passed) => Search {
            looked: passed + 1,
            found: Ok(walk.minute(passed)),
        },
        None => Search {
            looked: walk.count,
            found: Err(Refusal::NoSuchDate),
        },
    }
}

// The answer on a walk: refusal 3, then 12.
fn viewing_from(walk: Walk, body: i64) -> Search
    ensures { result ≡ viewing_if (is_planet body) walk.table body walk.first walk.step walk.count }
{
    match planet_of(body) {
        Ok(planet) => search_for(walk, planet),
        Err(refusal) => none_looked_at(refusal),
    }
}

// The next opposition or inferior conjunction among `count` dates from the start on: refusals 10, 1, 11, 2, 3 and 12 in order.
pub fn viewing(start: Date, table: i64, step: i64, count: i64, body: i64) -> Search
    ensures { result ≡ viewing_answer start table step count body }
{
    if !is_search(step, count) {
        return none_looked_at(Refusal::BadCount);
    }
    match span_moment(start, table, step, count) {
        Ok(first) => {
            let count = count as usize;
            let walk = Walk {
                table,
                first,
                step,
                count,
            };
            viewing_from(walk, body)
        }
        Err(refusal) => none_looked_at(refusal),
    }
}

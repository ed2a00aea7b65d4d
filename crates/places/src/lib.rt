// The answers for a date: the place of a body in a frame, in counts and in au, and vectors turned from a frame to a frame. The
// caller lends the sine table, so that a sheet or a listing builds it once.
#![tactic(auto)]

ghost use Rattle.std.specs.Prelude.{◌≡◌, ◌&&◌, ◌||◌};
ghost use Rattle.integers.specs.Range.{Within};
ghost use Rattle.integers.specs.Triple.{PartsWithin};
ghost use Rattle.tables.specs.Table.{is_body};
ghost use Rattle.frames.specs.Frame.{is_frame, needs_earth, turned_between};
ghost use Rattle.frames.specs.Frames.{frame_number};
ghost use Rattle.frames.specs.Answer.{in_limits, as_coordinates};
ghost use Rattle.places.specs.Answer.{earth_at, place_if, place_after, turn_if, turn_answer, au_answer};
ghost use Rattle.places.specs.Earth.{earth_if};

use angles::Sines;
use dates::Date;
use frames::{Coordinates, Frame};
use projector::PlaceInAu;
use refusals::Refusal;
use tables::{Body, Moment};

// The Earth's place, for frames that go by it; for the others it is not worked out.
fn earth_for(sines: &Sines, moment: Moment, from: Frame, to: Frame) -> [i64; 3]
    ensures { result ≡ earth_if (needs_earth (frame_number from) || needs_earth (frame_number to)) moment.table moment.minute }
{
    let needed = frames::needs_earth(from as i64) | frames::needs_earth(to as i64);
    if !needed {
        return [0, 0, 0];
    }
    orbits::place_at(sines, moment, Body::Earth)
}

// A vector turned between two frames at a moment.
fn turned_on(sines: &Sines, moment: Moment, from: Frame, to: Frame, v: [i64; 3]) -> Coordinates
    requires { PartsWithin 1000000000 v }
    ensures { result ≡ as_coordinates (turned_between (frame_number from) (frame_number to) (earth_at moment.table moment.minute) v) }
{
    let earth = earth_for(sines, moment, from, to);
    Coordinates::from(frames::turned_between(from, to, earth, v))
}

// The place of a body in a frame at a moment: refusal 3, then 4.
fn place_on(
    sines: &Sines,
    moment: Moment,
    body: i64,
    frame: i64,
) -> Result<(i64, Coordinates), Refusal>
    ensures { result ≡ place_if (is_body body) (is_frame frame) moment.table body frame moment.minute }
{
    let body = Body::try_from(body)?;
    let frame = Frame::try_from(frame)?;
    let v = orbits::place_at(sines, moment, body);
    Ok((
        moment.minute,
        turned_on(sines, moment, Frame::Hae, frame, v),
    ))
}

// The minute of a date and an offset, and the place of a body in a frame on it: refusals 1, 11, 2, 3, 4 in order. The row, the sheet,
// the listing and the single place all come this way.
pub fn place_after(
    sines: &Sines,
    date: Date,
    table: i64,
    offset: i64,
    body: i64,
    frame: i64,
) -> Result<(i64, Coordinates), Refusal>
    requires { Within 10000000000000 offset }
    ensures { result ≡ place_after date table offset body frame }
{
    let moment = tables::moment_on(date, table, offset)?;
    place_on(sines, moment, body, frame)
}

// The place on a date as three doubles in au, for the projector.
pub fn place_in_au(
    sines: &Sines,
    date: Date,
    table: i64,
    body: i64,
    frame: i64,
) -> Result<PlaceInAu, Refusal>
    ensures { result ≡ au_answer date table body frame }
{
    let (_, p) = place_after(sines, date, table, 0, body, frame)?;
    Ok(projector::in_au(p.x, p.y, p.z))
}

// A vector turned between two frames at a moment: refusal 4, then 5.
fn turn_on(
    sines: &Sines,
    moment: Moment,
    from: i64,
    to: i64,
    v: [i64; 3],
) -> Result<Coordinates, Refusal>
    ensures { result ≡ turn_if (is_frame from && is_frame to) (in_limits v) moment.table from to v moment.minute }
{
    let from = Frame::try_from(from)?;
    let to = Frame::try_from(to)?;
    if !frames::in_limits(v) {
        return Err(Refusal::TooFar);
    }
    Ok(turned_on(sines, moment, from, to, v))
}

// A vector of one frame in another on a date. The date is tested for every pair of frames.
pub fn turn_on_date(
    sines: &Sines,
    date: Date,
    table: i64,
    from: i64,
    to: i64,
    v: [i64; 3],
) -> Result<Coordinates, Refusal>
    ensures { result ≡ turn_answer date table from to v }
{
    let moment = tables::moment_on(date, table, 0)?;
    turn_on(sines, moment, from, to, v)
}

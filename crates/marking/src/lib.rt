// Marking pupils' sheets: the first row of a sheet that is no row, is a refused one, or has a coordinate further from ours than allowed. Each row
// is worked out by its own body, frame and minute. One sine table is lent for the whole sheet, and the sheet itself is only read.
#![tactic(auto)]

ghost use Rattle.std.specs.Prelude.{◌≡◌, ◌+◌, ◌*◌, ◌≤◌, length};
ghost use Rattle.std.specs.Option.{MatchOption};
ghost use Rattle.integers.specs.First.{first_picked};
ghost use Rattle.rows.specs.Fields.{row_size};
ghost use Rattle.rows.specs.Answer.{read_of};
ghost use Rattle.marking.specs.Wrong.{is_further, is_off, our_answer, is_off_by, is_wrong, is_wrong_at};
ghost use Rattle.marking.specs.Mark.{is_markable, mark_answer};

use angles::Sines;
use dates::Date;
use frames::Coordinates;
use refusals::Refusal;
use rows::{ROW_BYTES, ROW_TABLE, Row};

// Whether two coordinates are further apart than allowed.
fn is_further(allowed: u64, theirs: i64, ours: i64) -> bool
    ensures { result ≡ is_further allowed theirs ours }
{
    allowed < integers::distance(theirs, ours)
}

// Whether one of the row's coordinates is further from ours than allowed.
fn is_off(allowed: u64, row: Row, ours: Coordinates) -> bool
    ensures { result ≡ is_off allowed row ours }
{
    is_further(allowed, row.x, ours.x)
        | is_further(allowed, row.y, ours.y)
        | is_further(allowed, row.z, ours.z)
}

// The same by the row's own place, which we work out. No row of status 0 has one that we refuse.
fn is_off_ours(sines: &Sines, allowed: u64, row: Row) -> bool
    ensures { result ≡ is_off_by allowed row (our_answer row) }
{
    let date = Date::Minutes(row.minutes);
    match places::place_after(sines, date, ROW_TABLE, 0, row.body, row.frame) {
        Ok((_, ours)) => is_off(allowed, row, ours),
        Err(_) => true,
    }
}

// Whether the row at the start of these bytes is wrong.
fn is_wrong(sines: &Sines, allowed: u64, bytes: &[u8]) -> bool
    ensures { result ≡ is_wrong allowed (read_of bytes.now) }
{
    match rows::read_row(bytes) {
        Ok(row) => {
            let is_refused = row.status != 0;
            is_refused || is_off_ours(sines, allowed, row)
        }
        Err(_no_row) => true,
    }
}

// The number of the first wrong row, counted from 0, if there is one.
fn first_wrong(sines: &Sines, allowed: u64, count: usize, bytes: &[u8]) -> Option<usize>
    requires { (count ≤ 400) × (row_size * count ≤ length bytes.now) }
    ensures { MatchOption result (first_picked (is_wrong_at allowed bytes.now) count ≡ 0) (λ k. first_picked (is_wrong_at allowed bytes.now) count ≡ k + 1) }
{
    (0..count).find(|&k| is_wrong(sines, allowed, &bytes[ROW_BYTES * k..]))
}

fn is_markable(count: i64, allowed: i64) -> bool
    ensures { result ≡ is_markable count allowed }
{
    integers::is_from_to(0, 400, count) & integers::is_from_to(0, 1_000_000, allowed)
}

// The place of the first wrong row among `count`, counted from 1, if there is one; or the refusal: 10, then 8.
pub fn mark(bytes: &[u8], count: i64, allowed: i64) -> Result<Option<usize>, Refusal>
    ensures { result ≡ mark_answer bytes.now count allowed }
{
    if !is_markable(count, allowed) {
        return Err(Refusal::BadCount);
    }
    let n = count as usize;
    if bytes.len() < ROW_BYTES * n {
        return Err(Refusal::ShortBuffer);
    }
    let sines = Sines::new();
    Ok(first_wrong(&sines, allowed as u64, n, bytes).map(|k| k + 1))
}

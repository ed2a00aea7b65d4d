// Rows and sheets for dates: one row, or rows for a start, start + step, and so on, in bytes that are lent.
#![tactic(auto)]

ghost use Rattle.std.specs.Prelude.{◌≡◌, ◌++◌, ◌*◌, ◌≤◌, length, drop};
ghost use Rattle.integers.specs.Range.{Within};
ghost use Rattle.rows.specs.Fields.{row_size};
ghost use Rattle.sheets.specs.Row.{answer_written, row_written};
ghost use Rattle.sheets.specs.Sheet.{rows_of, good_of, is_sheet, sheet_written};

use angles::Sines;
use dates::Date;
use frames::Coordinates;
use refusals::Refusal;
use rows::{ROW_BYTES, ROW_TABLE};

// The row of an answer into bytes that have room for it; and the refusal, if it is one's.
fn put_answer(
    body: i64,
    frame: i64,
    answer: Result<(i64, Coordinates), Refusal>,
    bytes: &mut [u8],
) -> Result<(), Refusal>
    requires { row_size ≤ length bytes.old }
    ensures { (result, bytes.new) ≡ answer_written body frame answer bytes.old }
{
    match answer {
        Ok((minute, p)) => {
            rows::put_good(body, frame, minute, p.x, p.y, p.z, bytes);
            Ok(())
        }
        Err(refusal) => {
            rows::put_refused(refusal, bytes);
            Err(refusal)
        }
    }
}

// The row of a date into the first ROW_BYTES bytes. A refused row is written too, and its refusal told; refusal 8 where there is no room for it.
pub fn row(date: Date, body: i64, frame: i64, bytes: &mut [u8]) -> Result<(), Refusal>
    ensures { (result, bytes.new) ≡ row_written date body frame bytes.old }
{
    if bytes.len() < ROW_BYTES {
        return Err(Refusal::ShortBuffer);
    }
    let sines = Sines::new();
    put_answer(
        body,
        frame,
        places::place_after(&sines, date, ROW_TABLE, 0, body, frame),
        bytes,
    )
}

// The rows of a sheet, and how many of them have status 0. A refused row is written as such, and the next is worked out.
fn fill(
    sines: &Sines,
    start: Date,
    step: i64,
    count: usize,
    body: i64,
    frame: i64,
    bytes: &mut [u8],
) -> usize
    requires count_bound { (count ≤ 400) × (row_size * count ≤ length bytes.old) }
    requires within { Within 1000000 step }
    ensures { (bytes.new ≡ rows_of start step body frame count ++ drop (row_size * count) bytes.old) × (result ≡ good_of start step body frame count) }
{
    let mut good = 0;
    for k in 0..count {
        let at = ROW_BYTES * k;
        let answer = places::place_after(sines, start, ROW_TABLE, step * (k as i64), body, frame);
        let Ok((minute, p)) = answer else {
            let _ = put_answer(body, frame, answer, &mut bytes[at..]);
            continue;
        };
        rows::put_good(body, frame, minute, p.x, p.y, p.z, &mut bytes[at..]);
        good += 1;
    }
    good
}

fn is_sheet(step: i64, count: i64) -> bool
    ensures { result ≡ is_sheet step count }
{
    dates::is_step(step) & integers::is_from_to(0, 400, count)
}

// The rows for start, start + step, and so on, `count` of them, and how many have status 0: refusal 10, then 8, and then each row has its own
// status.
pub fn sheet(
    start: Date,
    step: i64,
    count: i64,
    body: i64,
    frame: i64,
    bytes: &mut [u8],
) -> Result<usize, Refusal>
    ensures { (result, bytes.new) ≡ sheet_written start step count body frame bytes.old }
{
    if !is_sheet(step, count) {
        return Err(Refusal::BadCount);
    }
    let n = count as usize;
    if bytes.len() < ROW_BYTES * n {
        return Err(Refusal::ShortBuffer);
    }
    let sines = Sines::new();
    Ok(fill(&sines, start, step, n, body, frame, bytes))
}

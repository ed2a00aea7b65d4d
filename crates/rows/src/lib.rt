// The bytes of a row: written from its fields, and read. Its layout is a list of widths, by which `layouts` writes and reads. One
// function says which fields are a row's.
#![tactic(auto)]

ghost use Rattle.std.specs.Prelude.{◌≡◌, ◌++◌, ◌≤◌, ◌<◌, length, drop};
ghost use Rattle.refusals.specs.Number.{number_of};
ghost use Rattle.layouts.specs.Layout.{numbers_in};
ghost use Rattle.rows.specs.Fields.{row_size, widths1, row_numbers, row_from, good_row, row_bytes, refused_bytes, is_good, is_refused, is_row, are_row};
ghost use Rattle.rows.specs.Answer.{read_of, written};

use refusals::Refusal;

// How many bytes a row has.
pub const ROW_BYTES: usize = 38;

// What a row's length says: the bytes that follow it.
const LENGTH: i64 = 36;

const VERSION: i64 = 1;

// The table that rows of this version are of.
pub const ROW_TABLE: i64 = 1;

// The layout of version 1, in bytes: length, version, status, body, frame, minutes, x, y, z.
const WIDTHS: [usize; 9] = [2, 1, 1, 1, 1, 8, 8, 8, 8];

// The fields of a row. A refused row has its number for the status, and zeros for all others.
#[derive(Clone, Copy, Debug, Default, PartialEq, Eq)]
pub struct Row {
    pub status: i64,
    pub body: i64,
    pub frame: i64,
    // Minutes from JD 2451545.0.
    pub minutes: i64,
    // Coordinates in 10^-7 au.
    pub x: i64,
    pub y: i64,
    pub z: i64,
}

// A row's numbers in the order of the layout.
fn row_numbers(row: Row) -> [i64; 9]
    ensures { result ≡ row_numbers row }
{
    [
        LENGTH,
        VERSION,
        row.status,
        row.body,
        row.frame,
        row.minutes,
        row.x,
        row.y,
        row.z,
    ]
}

// The row of numbers in that order.
fn row_from(numbers: [i64; 9]) -> Row
    ensures { result ≡ row_from numbers }
{
    Row {
        status: numbers[2],
        body: numbers[3],
        frame: numbers[4],
        minutes: numbers[5],
        x: numbers[6],
        y: numbers[7],
        z: numbers[8],
    }
}

// The row's bytes, whatever its fields are.
#[tactic(auto, unfolding(crate::specs::Fields::row_bytes))]
fn put_row(row: Row, bytes: &mut [u8])
    requires { row_size ≤ length bytes.old }
    ensures { bytes.new ≡ row_bytes row ++ drop row_size bytes.old }
{
    layouts::put_numbers(&WIDTHS, &row_numbers(row), bytes);
}

// The numbers in the bytes of a row, whatever they are.
fn numbers_in_row(bytes: &[u8]) -> [i64; 9]
    requires { row_size ≤ length bytes.now }
    ensures { result ≡ numbers_in widths1 bytes.now }
{
    let mut numbers = [0; 9];
    layouts::numbers_in(&WIDTHS, bytes, &mut numbers);
    numbers
}

// Status 0 with a known body and frame and a date in the interval, any x, y, z.
fn is_good(row: Row) -> bool
    ensures { result ≡ is_good row }
{
    let interval = tables::interval_of(ROW_TABLE);
    (row.status == 0)
        & tables::is_body(row.body)
        & integers::is_from_to(1, 5, row.frame)
        & integers::is_from_to(interval.first, interval.last, row.minutes)
}

// Status 1 to 4 with nothing but zeros after it.
#[tactic(auto, unfolding(crate::specs::Fields::is_refused))]
fn is_refused(row: Row) -> bool
    ensures { result ≡ is_refused row }
{
    let numbers = row_numbers(row);
    integers::is_from_to(1, 4, row.status) && layouts::are_zeros(&numbers[3..])
}

// Whether a reader takes these fields.
#[tactic(auto, unfolding(crate::specs::Fields::is_row))]
fn is_row(row: Row) -> bool
    ensures { result ≡ is_row row }
{
    is_good(row) || is_refused(row)
}

// Whether a reader takes these numbers.
#[tactic(auto, unfolding(crate::specs::Fields::are_row))]
fn are_row(numbers: [i64; 9]) -> bool
    ensures { result ≡ are_row numbers }
{
    numbers[0] == LENGTH && numbers[1] == VERSION && is_row(row_from(numbers))
}

// The row in the first ROW_BYTES bytes, or refusal 9.
#[tactic(auto, unfolding(crate::specs::Answer::read_of))]
pub fn read_row(bytes: &[u8]) -> Result<Row, Refusal>
    ensures { result ≡ read_of bytes.now }
{
    if bytes.len() < ROW_BYTES {
        return Err(Refusal::NoRow);
    }
    let numbers = numbers_in_row(bytes);
    if !are_row(numbers) {
        return Err(Refusal::NoRow);
    }
    Ok(row_from(numbers))
}

// The row of these fields into the first ROW_BYTES bytes. Refusal 8 comes before 9, and either leaves all bytes as they were.
#[tactic(auto, unfolding(crate::specs::Answer::written))]
pub fn write_row(row: Row, bytes: &mut [u8]) -> Result<(), Refusal>
    ensures { (result, bytes.new) ≡ written row bytes.old }
{
    if bytes.len() < ROW_BYTES {
        return Err(Refusal::ShortBuffer);
    }
    if !is_row(row) {
        return Err(Refusal::NoRow);
    }
    put_row(row, bytes);
    Ok(())
}

// A row of status 0 into bytes that have room for it. Its fields are not tested again.
pub fn put_good(body: i64, frame: i64, minutes: i64, x: i64, y: i64, z: i64, bytes: &mut [u8])
    requires { row_size ≤ length bytes.old }
    ensures { bytes.new ≡ row_bytes (good_row body frame minutes x y z) ++ drop row_size bytes.old }
{
    let row = Row {
        status: 0,
        body,
        frame,
        minutes,
        x,
        y,
        z,
    };
    put_row(row, bytes);
}

// A refused row into bytes that have room for it: no byte of what stood there is left.

pub fn put_refused(refusal: Refusal, bytes: &mut [u8])
    requires { row_size ≤ length bytes.old }
    ensures { bytes.new ≡ refused_bytes (number_of refusal) ++ drop row_size bytes.old }
{
    let row = Row {
        status: refusal.number(),
        ..Row::default()
    };
    put_row(row, bytes);
}

// The C interface, a static library. Each exported function is one line over the crates below; `include/lindenbrood.h`
// declares them for C. One struct carries a date in either form, so that no call exists twice. A call that names no table hands
// on `DEFAULT_TABLE`; to go by way of the call by a table would cost some 9 ns.
#![tactic(auto)]

ghost use Rattle.std.specs.Prelude.{◌≡◌, [], ◌∷◌};
ghost use Rattle.angles.specs.Sine.{sine_of, cosine_of};
ghost use Rattle.kepler.specs.Answer.{solved_of};
ghost use Rattle.tables.specs.Table.{default_table};
ghost use Rattle.orbits.specs.Answer.{elements_answer, mean_answer};
ghost use Rattle.frames.specs.Rtn.{to_rtn, from_rtn};
ghost use Rattle.places.specs.Answer.{place_answer, turn_answer, au_answer};
ghost use Rattle.rows.specs.Answer.{read_of, written};
ghost use Rattle.sheets.specs.Row.{row_written};
ghost use Rattle.sheets.specs.Sheet.{sheet_written};
ghost use Rattle.viewing.specs.Viewing.{viewing_answer};
ghost use Rattle.marking.specs.Mark.{mark_answer};
ghost use Rattle.answers.specs.Answer.{date_of, c_angle, IsSolved, c_elements, c_counts, c_vector, c_place, c_viewing};
ghost use Rattle.answers.specs.Lent.{c_row, row_of_fields, written_number, sheet_number, c_mark};

use angles::{Angle, Element, Sines};
use answers::{CAngle, CDate, CElements, CMark, CPlace, CRow, CSheet, CVector, CViewing};
use dates::Date;
use rows::Row;
use tables::DEFAULT_TABLE;

// The sine of any angle, 10^9 standing for one.
#[unsafe(no_mangle)]
pub extern "C" fn lindenbrood_sine(angle: i64) -> i64
    ensures { result ≡ sine_of angle }
{
    Sines::new().sine(Angle::of_millionths(angle))
}

// The cosine of any angle.
#[unsafe(no_mangle)]
pub extern "C" fn lindenbrood_cosine(angle: i64) -> i64
    ensures { result ≡ cosine_of angle }
{
    Sines::new().cosine(Angle::of_millionths(angle))
}

// The eccentric anomaly of any mean anomaly at any eccentricity, or refusal 7.
#[unsafe(no_mangle)]
pub extern "C" fn lindenbrood_eccentric_anomaly(e: i64, mean: i64) -> CAngle
    ensures value { result ≡ c_angle (solved_of e mean) }
    ensures solved { IsSolved e mean result }
{
    let sines = Sines::new();
    CAngle::from(kepler::solve(
        &sines,
        Element::of_hundred_millionths(e),
        Angle::of_millionths(mean),
    ))
}

// The six elements of a body on a date by a table.
#[unsafe(no_mangle)]
pub extern "C" fn lindenbrood_elements_by_table(date: CDate, table: i64, body: i64) -> CElements
    ensures { result ≡ c_elements (elements_answer (date_of date) table body) }
{
    CElements::from(orbits::elements_on_date(Date::from(date), table, body))
}

// The same by the table of a call that names none.
#[unsafe(no_mangle)]
pub extern "C" fn lindenbrood_elements(date: CDate, body: i64) -> CElements
    ensures { result ≡ c_elements (elements_answer (date_of date) default_table body) }
{
    CElements::from(orbits::elements_on_date(Date::from(date), DEFAULT_TABLE, body))
}

// The mean anomaly of a body on a date by a table.
#[unsafe(no_mangle)]
pub extern "C" fn lindenbrood_mean_anomaly_by_table(date: CDate, table: i64, body: i64) -> CAngle
    ensures { result ≡ c_angle (mean_answer (date_of date) table body) }
{
    CAngle::from(orbits::mean_anomaly(Date::from(date), table, body))
}

// The same by the table of a call that names none.
#[unsafe(no_mangle)]
pub extern "C" fn lindenbrood_mean_anomaly(date: CDate, body: i64) -> CAngle
    ensures { result ≡ c_angle (mean_answer (date_of date) default_table body) }
{
    CAngle::from(orbits::mean_anomaly(Date::from(date), DEFAULT_TABLE, body))
}

// The place of a body in a frame on a date by a table, in counts of 10^-7 au.
#[unsafe(no_mangle)]
pub extern "C" fn lindenbrood_counts_by_table(
    date: CDate,
    table: i64,
    body: i64,
    frame: i64,
) -> CVector
    ensures { result ≡ c_counts (place_answer (date_of date) table body frame) }
{
    let given = Date::from(date);
    let sines = Sines::new();
    CVector::from(places::place_after(&sines, given, table, 0, body, frame))
}

// The same by the table of a call that names none.
#[unsafe(no_mangle)]
pub extern "C" fn lindenbrood_counts(date: CDate, body: i64, frame: i64) -> CVector
    ensures { result ≡ c_counts (place_answer (date_of date) default_table body frame) }
{
    let given = Date::from(date);
    let sines = Sines::new();
    CVector::from(places::place_after(&sines, given, DEFAULT_TABLE, 0, body, frame))
}

// The place of a body in a frame on a date by a table, in au.
#[unsafe(no_mangle)]
pub extern "C" fn lindenbrood_place_by_table(
    date: CDate,
    table: i64,
    body: i64,
    frame: i64,
) -> CPlace
    ensures { result ≡ c_place (au_answer (date_of date) table body frame) }
{
    let sines = Sines::new();
    CPlace::from(places::place_in_au(&sines, Date::from(date), table, body, frame))
}

// The same by the table of a call that names none.
#[unsafe(no_mangle)]
pub extern "C" fn lindenbrood_place(date: CDate, body: i64, frame: i64) -> CPlace
    ensures { result ≡ c_place (au_answer (date_of date) default_table body frame) }
{
    let sines = Sines::new();
    CPlace::from(places::place_in_au(&sines, Date::from(date), DEFAULT_TABLE, body, frame))
}

// A vector of one frame in another on a date by a table, whose Earth HEE and HEEQ go by.
#[unsafe(no_mangle)]
pub extern "C" fn lindenbrood_turn_by_table(
    date: CDate,
    table: i64,
    from: i64,
    to: i64,
    x: i64,
    y: i64,
    z: i64,
) -> CVector
    ensures { result ≡ c_vector (turn_answer (date_of date) table from to (x ∷ y ∷ z ∷ [])) }
{
    let given = Date::from(date);
    let sines = Sines::new();
    CVector::from(places::turn_on_date(&sines, given, table, from, to, [x, y, z]))
}

// The same by the table of a call that names none.
#[unsafe(no_mangle)]
pub extern "C" fn lindenbrood_turn(
    date: CDate,
    from: i64,
    to: i64,
    x: i64,
    y: i64,
    z: i64,
) -> CVector
    ensures { result ≡ c_vector (turn_answer (date_of date) default_table from to (x ∷ y ∷ z ∷ [])) }
{
    let given = Date::from(date);
    let sines = Sines::new();
    CVector::from(places::turn_on_date(&sines, given, DEFAULT_TABLE, from, to, [x, y, z]))
}

// A vector of HAE in RTN at the place r of a spacecraft.
#[unsafe(no_mangle)]
pub extern "C" fn lindenbrood_to_rtn(rx: i64, ry: i64, rz: i64, x: i64, y: i64, z: i64) -> CVector
    ensures { result ≡ c_vector (to_rtn (rx ∷ ry ∷ rz ∷ []) (x ∷ y ∷ z ∷ [])) }
{
    CVector::from(frames::to_rtn([rx, ry, rz], [x, y, z]))
}

// A vector of RTN at the place r of a spacecraft in HAE.
#[unsafe(no_mangle)]
pub extern "C" fn lindenbrood_from_rtn(rx: i64, ry: i64, rz: i64, x: i64, y: i64, z: i64) -> CVector
    ensures { result ≡ c_vector (from_rtn (rx ∷ ry ∷ rz ∷ []) (x ∷ y ∷ z ∷ [])) }
{
    CVector::from(frames::from_rtn([rx, ry, rz], [x, y, z]))
}

// The row of a body in a frame on a date, into bytes that are lent.
#[unsafe(no_mangle)]
pub extern "C" fn lindenbrood_row(date: CDate, body: i64, frame: i64, bytes: &mut [u8]) -> i64
    ensures { (result, bytes.new) ≡ written_number (row_written (date_of date) body frame bytes.old) }
{
    answers::status_of(sheets::row(Date::from(date), body, frame, bytes))
}

// A row of these fields, into bytes that are lent.
#[unsafe(no_mangle)]
pub extern "C" fn lindenbrood_write_row(
    status: i64,
    body: i64,
    frame: i64,
    minutes: i64,
    x: i64,
    y: i64,
    z: i64,
    bytes: &mut [u8],
) -> i64
    ensures { (result, bytes.new) ≡ written_number (written (row_of_fields status body frame minutes x y z) bytes.old) }
{
    let row = Row {
        status,
        body,
        frame,
        minutes,
        x,
        y,
        z,
    };
    answers::status_of(rows::write_row(row, bytes))
}

// The row in bytes that are lent to be read.
#[unsafe(no_mangle)]
pub extern "C" fn lindenbrood_read_row(bytes: &[u8]) -> CRow
    ensures { result ≡ c_row (read_of bytes.now) }
{
    CRow::from(rows::read_row(bytes))
}

// The rows for a date, that date and the step, and so on, into bytes that are lent.
#[unsafe(no_mangle)]
pub extern "C" fn lindenbrood_sheet(
    start: CDate,
    step: i64,
    count: i64,
    body: i64,
    frame: i64,
    bytes: &mut [u8],
) -> CSheet
    ensures { (result, bytes.new) ≡ sheet_number (sheet_written (date_of start) step count body frame bytes.old) }
{
    CSheet::from(sheets::sheet(Date::from(start), step, count, body, frame, bytes))
}

// The first wrong row of a sheet in bytes that are lent to be read.
#[unsafe(no_mangle)]
pub extern "C" fn lindenbrood_mark(bytes: &[u8], count: i64, allowed: i64) -> CMark
    ensures { result ≡ c_mark (mark_answer bytes.now count allowed) }
{
    CMark::from(marking::mark(bytes, count, allowed))
}

// The next opposition or inferior conjunction of a body among the dates of a walk, by a table.
#[unsafe(no_mangle)]
pub extern "C" fn lindenbrood_viewing_by_table(
    start: CDate,
    table: i64,
    step: i64,
    count: i64,
    body: i64,
) -> CViewing
    ensures { result ≡ c_viewing (viewing_answer (date_of start) table step count body) }
{
    CViewing::from(viewing::viewing(Date::from(start), table, step, count, body))
}

// The same by the table of a call that names none; beside a whole walk the few ns of one call more do not count.
#[unsafe(no_mangle)]
pub extern "C" fn lindenbrood_viewing(start: CDate, step: i64, count: i64, body: i64) -> CViewing
    ensures { result ≡ c_viewing (viewing_answer (date_of start) default_table step count body) }
{
    lindenbrood_viewing_by_table(start, DEFAULT_TABLE, step, count, body)
}

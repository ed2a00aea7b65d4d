// Document 002's tables: a row of twelve numbers for each body, the numbers of the further terms that M has by Table 2, and the
// interval of dates that each fit covers.
#![tactic(auto)]

ghost use Rattle.std.specs.Prelude.{◌≡◌, pos, Ok, Err, MatchResult};
ghost use Rattle.integers.specs.Range.{Within};
ghost use Rattle.tables.specs.Table.{is_table, is_body, table_row, table_terms, interval_of, OnTable, moment_after};
ghost use Rattle.tables.specs.Bodies.{body_number, body_of};

use dates::{Date, Interval};
use refusals::Refusal;

mod table1;
mod table2;

// The table of a call that names none.
pub const DEFAULT_TABLE: i64 = 1;

// The nine bodies. Body 3 is the Earth-Moon barycentre.
#[derive(Clone, Copy, Debug, PartialEq, Eq)]
pub enum Body {
    Mercury = 1,
    Venus = 2,
    Earth = 3,
    Mars = 4,
    Jupiter = 5,
    Saturn = 6,
    Uranus = 7,
    Neptune = 8,
    Pluto = 9,
}

impl TryFrom<i64> for Body {
    type Error = Refusal;

    ghost try_from_gives = { λ n body. body ≡ body_of n };

    // The body of a number, or refusal 3.
    fn try_from(number: i64) -> Result<Body, Refusal> {
        match number {
            1 => Ok(Body::Mercury),
            2 => Ok(Body::Venus),
            3 => Ok(Body::Earth),
            4 => Ok(Body::Mars),
            5 => Ok(Body::Jupiter),
            6 => Ok(Body::Saturn),
            7 => Ok(Body::Uranus),
            8 => Ok(Body::Neptune),
            9 => Ok(Body::Pluto),
            _ => Err(Refusal::NoSuchBody),
        }
    }
}

// A minute of the interval of a table that there is.
#[derive(Clone, Copy, Debug)]
pub struct Moment {
    pub table: i64,
    pub minute: i64,
    pub ghost on_table: { OnTable table minute },
}

// Whether there is a table of this number.
pub fn is_table(table: i64) -> bool
    ensures { result ≡ is_table table }
{
    integers::is_from_to(1, 2, table)
}

// Whether there is a body of this number.
pub fn is_body(body: i64) -> bool
    ensures { result ≡ is_body body }
{
    integers::is_from_to(1, 9, body)
}

// The row of a body in a table. One row is named in each case, since a constant is built again wherever it is named.
pub fn row_of(table: i64, body: Body) -> [i64; 12]
    ensures { result ≡ table_row table (body_number body) }
{
    if table == 1 {
        return row1_of(body);
    }
    row2_of(body)
}

// The row of a body in Table 1.
#[tactic(auto, unfolding(crate::specs::Table::table_row, crate::specs::Table::table1))]
fn row1_of(body: Body) -> [i64; 12]
    ensures { result ≡ table_row (pos 1) (body_number body) }
{
    match body {
        Body::Mercury => table1::MERCURY,
        Body::Venus => table1::VENUS,
        Body::Earth => table1::EM_BARY,
        Body::Mars => table1::MARS,
        Body::Jupiter => table1::JUPITER,
        Body::Saturn => table1::SATURN,
        Body::Uranus => table1::URANUS,
        Body::Neptune => table1::NEPTUNE,
        Body::Pluto => table1::PLUTO,
    }
}

// The row of a body in Table 2.
#[tactic(auto, unfolding(crate::specs::Table::table_row, crate::specs::Table::table2))]
fn row2_of(body: Body) -> [i64; 12]
    ensures { result ≡ table_row (pos 2) (body_number body) }
{
    match body {
        Body::Mercury => table2::MERCURY,
        Body::Venus => table2::VENUS,
        Body::Earth => table2::EM_BARY,
        Body::Mars => table2::MARS,
        Body::Jupiter => table2::JUPITER,
        Body::Saturn => table2::SATURN,
        Body::Uranus => table2::URANUS,
        Body::Neptune => table2::NEPTUNE,
        Body::Pluto => table2::PLUTO,
    }
}

// Table 2's b, c, s and f of a body: Mercury to Mars have none.
#[tactic(auto, unfolding(crate::specs::Table::table_terms, crate::specs::Table::terms2))]
fn terms2_of(body: Body) -> [i64; 4]
    ensures { result ≡ table_terms (pos 2) (body_number body) }
{
    match body {
        Body::Mercury | Body::Venus | Body::Earth | Body::Mars => [0, 0, 0, 0],
        Body::Jupiter => table2::JUPITER_TERMS,
        Body::Saturn => table2::SATURN_TERMS,
        Body::Uranus => table2::URANUS_TERMS,
        Body::Neptune => table2::NEPTUNE_TERMS,
        Body::Pluto => table2::PLUTO_TERMS,
    }
}

// The b, c, s and f of a body: Table 1 has none.
pub fn terms_of(table: i64, body: Body) -> [i64; 4]
    ensures { result ≡ table_terms table (body_number body) }
{
    if table == 1 {
        return [0, 0, 0, 0];
    }
    terms2_of(body)
}

// The interval of a table: JD 2378496.5 to JD 2469807.5, or JD 625673.5 to JD 2816787.5.
pub fn interval_of(table: i64) -> Interval
    ensures { result ≡ interval_of table }
{
    if table == 1 {
        return Interval {
            first: -105_189_840,
            last: 26_298_000,
        };
    }
    Interval {
        first: -2_629_254_960,
        last: 525_949_200,
    }
}

// The moment of a date and an offset in minutes by a table: refusal 1, then 11, then 2.
pub fn moment_after(date: Date, table: i64, offset: i64) -> Result<i64, Refusal>
    requires { Within 10000000000000 offset }
    ensures { result ≡ moment_after date table offset }
{
    let minute = dates::minute_of(date);
    if is_table(table) {
        return dates::moment_at(interval_of(table), minute, offset);
    }
    match minute {
        None => Err(Refusal::NotFinite),
        Some(_) => Err(Refusal::NoSuchTable),
    }
}

// The same as a moment of the table.
pub fn moment_on(date: Date, table: i64, offset: i64) -> Result<Moment, Refusal>
    requires { Within 10000000000000 offset }
    ensures { MatchResult result
        (λ moment. (moment.table ≡ table) × (moment_after date table offset ≡ Ok moment.minute))
        (λ refusal. moment_after date table offset ≡ Err refusal) }
{
    let minute = moment_after(date, table, offset)?;
    Ok(Moment { table, minute })
}

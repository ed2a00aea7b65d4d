// What C gives and gets back: a date in one struct, and each answer as a struct of its number and its values.
#![tactic(auto)]

ghost use Rattle.std.specs.Prelude.{◌≡◌};
ghost use Rattle.refusals.specs.Number.{status_of};
ghost use Rattle.answers.specs.Answer.{date_of, c_angle, c_elements, three_counts, c_counts, c_vector, three_doubles, c_place, c_viewing};
ghost use Rattle.answers.specs.Lent.{row_fields, c_row, c_sheet, c_mark};

use angles::Angle;
use dates::Date;
use frames::Coordinates;
use orbits::Elements;
use projector::PlaceInAu;
use refusals::Refusal;
use rows::Row;
use viewing::Search;

// A date. Form 0 is the Julian date; any other form is the minutes, and the member that is not meant is not looked at.
#[repr(C)]
#[derive(Clone, Copy, Debug, PartialEq)]
pub struct CDate {
    pub form: i64,
    pub julian: f64,
    pub minutes: i64,
}

// A status number, and an angle in millionths of a degree, zero where the status is not.
#[repr(C)]
#[derive(Clone, Copy, Debug, PartialEq)]
pub struct CAngle {
    pub status: i64,
    pub angle: i64,
}

// A status number, and six elements in hundred-millionths, zeros where the status is not.
#[repr(C)]
#[derive(Clone, Copy, Debug, PartialEq)]
pub struct CElements {
    pub status: i64,
    pub a: i64,
    pub e: i64,
    pub inclination: i64,
    pub longitude: i64,
    pub perihelion: i64,
    pub node: i64,
}

// A status number, and three counts of 10^-7 au, zeros where the status is not.
#[repr(C)]
#[derive(Clone, Copy, Debug, PartialEq)]
pub struct CVector {
    pub status: i64,
    pub x: i64,
    pub y: i64,
    pub z: i64,
}

// A status number, and three doubles in au, zeros where the status is not.
#[repr(C)]
#[derive(Clone, Copy, Debug, PartialEq)]
pub struct CPlace {
    pub status: i64,
    pub x: f64,
    pub y: f64,
    pub z: f64,
}

// A status number, and the fields of the row that was read, zeros where the status is not.
#[repr(C)]
#[derive(Clone, Copy, Debug, PartialEq)]
pub struct CRow {
    pub status: i64,
    pub row_status: i64,
    pub body: i64,
    pub frame: i64,
    pub minutes: i64,
    pub x: i64,
    pub y: i64,
    pub z: i64,
}

// A status number, and how many rows of the sheet have status 0.
#[repr(C)]
#[derive(Clone, Copy, Debug, PartialEq)]
pub struct CSheet {
    pub status: i64,
    pub good: usize,
}

// A status number, and the place of the first wrong row, zero where there is none.
#[repr(C)]
#[derive(Clone, Copy, Debug, PartialEq)]
pub struct CMark {
    pub status: i64,
    pub row: usize,
}

// A status number, the minute of the hit, zero where the status is not, and how many dates were looked at.
#[repr(C)]
#[derive(Clone, Copy, Debug, PartialEq)]
pub struct CViewing {
    pub status: i64,
    pub minutes: i64,
    pub looked: usize,
}

impl From<CDate> for Date {
    ghost from_gives = { λ given date. date ≡ date_of given };

    fn from(given: CDate) -> Date {
        if given.form == 0 {
            return Date::Julian(given.julian);
        }
        Date::Minutes(given.minutes)
    }
}

impl From<Result<Angle, Refusal>> for CAngle {
    ghost from_gives = { λ answer c. c ≡ c_angle answer };

    fn from(answer: Result<Angle, Refusal>) -> CAngle {
        match answer {
            Ok(angle) => CAngle {
                status: 0,
                angle: angle.millionths(),
            },
            Err(refusal) => CAngle {
                status: refusal.number(),
                angle: 0,
            },
        }
    }
}

impl From<Result<Elements, Refusal>> for CElements {
    ghost from_gives = { λ answer c. c ≡ c_elements answer };

    fn from(answer: Result<Elements, Refusal>) -> CElements {
        match answer {
            Ok(elements) => CElements {
                status: 0,
                a: elements.a.hundred_millionths(),
                e: elements.e.hundred_millionths(),
                inclination: elements.inclination.hundred_millionths(),
                longitude: elements.longitude.hundred_millionths(),
                perihelion: elements.perihelion.hundred_millionths(),
                node: elements.node.hundred_millionths(),
            },
            Err(refusal) => CElements {
                status: refusal.number(),
                a: 0,
                e: 0,
                inclination: 0,
                longitude: 0,
                perihelion: 0,
                node: 0,
            },
        }
    }
}

fn three_counts(status: i64, p: Coordinates) -> CVector
    ensures { result ≡ three_counts status p }
{
    CVector {
        status,
        x: p.x,
        y: p.y,
        z: p.z,
    }
}

// A turned vector.
impl From<Result<Coordinates, Refusal>> for CVector {
    ghost from_gives = { λ answer c. c ≡ c_vector answer };

    fn from(answer: Result<Coordinates, Refusal>) -> CVector {
        match answer {
            Ok(vector) => three_counts(0, vector),
            Err(refusal) => three_counts(refusal.number(), Coordinates::from([0, 0, 0])),
        }
    }
}

// A place, without its minute.
impl From<Result<(i64, Coordinates), Refusal>> for CVector {
    ghost from_gives = { λ answer c. c ≡ c_counts answer };

    fn from(answer: Result<(i64, Coordinates), Refusal>) -> CVector {
        match answer {
            Ok((_, place)) => three_counts(0, place),
            Err(refusal) => three_counts(refusal.number(), Coordinates::from([0, 0, 0])),
        }
    }
}

fn three_doubles(status: i64, p: PlaceInAu) -> CPlace
    ensures { result ≡ three_doubles status p }
{
    CPlace {
        status,
        x: p.x,
        y: p.y,
        z: p.z,
    }
}

impl From<Result<PlaceInAu, Refusal>> for CPlace {
    ghost from_gives = { λ answer c. c ≡ c_place answer };

    fn from(answer: Result<PlaceInAu, Refusal>) -> CPlace {
        match answer {
            Ok(place) => three_doubles(0, place),
            Err(refusal) => three_doubles(refusal.number(), projector::nowhere()),
        }
    }
}

fn row_fields(status: i64, row: Row) -> CRow
    ensures { result ≡ row_fields status row }
{
    CRow {
        status,
        row_status: row.status,
        body: row.body,
        frame: row.frame,
        minutes: row.minutes,
        x: row.x,
        y: row.y,
        z: row.z,
    }
}

impl From<Result<Row, Refusal>> for CRow {
    ghost from_gives = { λ answer c. c ≡ c_row answer };

    fn from(answer: Result<Row, Refusal>) -> CRow {
        match answer {
            Ok(row) => row_fields(0, row),
            Err(refusal) => row_fields(refusal.number(), Row::default()),
        }
    }
}

// The number of what a writer or a row call answers.
pub fn status_of(answer: Result<(), Refusal>) -> i64
    ensures { result ≡ status_of answer }
{
    match answer {
        Ok(()) => 0,
        Err(refusal) => refusal.number(),
    }
}

impl From<Result<usize, Refusal>> for CSheet {
    ghost from_gives = { λ answer c. c ≡ c_sheet answer };

    fn from(answer: Result<usize, Refusal>) -> CSheet {
        match answer {
            Ok(good) => CSheet { status: 0, good },
            Err(refusal) => CSheet {
                status: refusal.number(),
                good: 0,
            },
        }
    }
}

impl From<Result<Option<usize>, Refusal>> for CMark {
    ghost from_gives = { λ answer c. c ≡ c_mark answer };

    fn from(answer: Result<Option<usize>, Refusal>) -> CMark {
        match answer {
            Ok(None) => CMark { status: 0, row: 0 },
            Ok(Some(row)) => CMark { status: 0, row },
            Err(refusal) => CMark {
                status: refusal.number(),
                row: 0,
            },
        }
    }
}

impl From<Search> for CViewing {
    ghost from_gives = { λ search c. c ≡ c_viewing search };

    fn from(search: Search) -> CViewing {
        let looked = search.looked;
        match search.found {
            Ok(minutes) => CViewing {
                status: 0,
                minutes,
                looked,
            },
            Err(refusal) => CViewing {
                status: refusal.number(),
                minutes: 0,
                looked,
            },
        }
    }
}

// The numbered refusals of documents 01 and 02, one case for each. Later numbers are further cases.
#![tactic(auto)]

ghost use Rattle.std.specs.Prelude.{◌≡◌};
ghost use Rattle.refusals.specs.Number.{number_of};

#[derive(Clone, Copy, Debug, PartialEq, Eq)]
pub enum Refusal {
    // A Julian date that is not finite.
    NotFinite = 1,
    // Minutes outside the interval of the table named.
    OutsideInterval = 2,
    // A body that is not 1 to 9; in a search body 3 too.
    NoSuchBody = 3,
    // A frame that is not 1 to 5.
    NoSuchFrame = 4,
    // A part of a given vector or place beyond 500,000,000 either way.
    TooFar = 5,
    // RTN: L of r under 100,000, or L of S×R under 1,000,000.
    NoDirection = 6,
    // An eccentricity under 0 or over 90,000,000.
    NoEllipse = 7,
    // A buffer shorter than the rows asked for.
    ShortBuffer = 8,
    // Bytes that are no row, fields that make none, a line that is none.
    NoRow = 9,
    // A step that is not 1 to 1,000,000, or a count that is not one of those taken.
    BadCount = 10,
    // A table that is not 1 or 2.
    NoSuchTable = 11,
    // A search with no such date in its span.
    NoSuchDate = 12,
}

impl Refusal {
    pub fn number(self) -> i64
        ensures { result ≡ number_of self }
    {
        self as i64
    }
}

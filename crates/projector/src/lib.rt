// A place for the projector: three doubles in au, each from a whole count of 10^-7 au.
#![tactic(auto)]

ghost use Rattle.std.specs.Prelude.{◌≡◌};
ghost use Rattle.integers.specs.Range.{Within};
ghost use Rattle.projector.specs.Au.{CountsExact, au, in_au, nowhere};

// A place in au.
#[derive(Clone, Copy, Debug, Default, PartialEq)]
pub struct PlaceInAu {
    pub x: f64,
    pub y: f64,
    pub z: f64,
}

// A count of 10^-7 au in au: the cast is exact up to 2^53, so only the division rounds.
fn au(n: i64) -> f64
    requires { Within 9007199254740992 n }
    ensures { result ≡ au n }
{
    (n as f64) / 10000000.0
}

// The place of three counts.
pub fn in_au(x: i64, y: i64, z: i64) -> PlaceInAu
    requires { CountsExact x y z }
    ensures { result ≡ in_au x y z }
{
    PlaceInAu {
        x: au(x),
        y: au(y),
        z: au(z),
    }
}

// What a refused place leaves: three zeros.
pub fn nowhere() -> PlaceInAu
    ensures { result ≡ nowhere }
{
    PlaceInAu::default()
}

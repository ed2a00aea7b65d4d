// Sun-centred frames: rotations of three rows, vectors turned between frames, and RTN at a spacecraft's place.
// In a rotation 10^9 stands for one. Lengths are counts of 10^-7 au. The Earth's place in HAE is the caller's.
#![tactic(auto)]

ghost use Rattle.std.specs.Prelude.{◌≡◌, if◌then◌else◌, Ok, Err};
ghost use Rattle.refusals.specs.declared.Refusal.TheVariants.{NoDirection};
ghost use Rattle.integers.specs.Triple.{PartsWithin};
ghost use Rattle.vectors.specs.Range.{NoLonger};
ghost use Rattle.frames.specs.Range.{EarthFits};
ghost use Rattle.vectors.specs.Vector.{applied};
ghost use Rattle.frames.specs.Frame.{is_frame, HasRows, needs_earth, gei_rows, hci_rows, solar_axis, on_ecliptic, hee_rows, heeq_rows, rotation_of, hae_turned, turned_between};
ghost use Rattle.frames.specs.Frames.{frame_number, frame_of};
ghost use Rattle.frames.specs.Answer.{part_in_limits, in_limits, as_coordinates};
ghost use Rattle.frames.specs.Rtn.{rtn_of, rtn_rows, has_direction, rtn_turned, to_rtn, from_rtn};

use refusals::Refusal;

// The five frames.
#[derive(Clone, Copy, Debug, PartialEq, Eq)]
pub enum Frame {
    // HAE of J2000, which the rows of the others turn into them.
    Hae = 1,
    // GEI of J2000, by the obliquity.
    Gei = 2,
    // HCI, by the node and the tilt; its last row is the solar axis.
    Hci = 3,
    // HEE, by the Earth's (x, y, 0).
    Hee = 4,
    // HEEQ, by the unit vector to the Earth and the solar axis.
    Heeq = 5,
}

impl TryFrom<i64> for Frame {
    type Error = Refusal;

    ghost try_from_gives = { λ n frame. frame ≡ frame_of n };

    // The frame of a number, or refusal 4.
    fn try_from(number: i64) -> Result<Frame, Refusal> {
        match number {
            1 => Ok(Frame::Hae),
            2 => Ok(Frame::Gei),
            3 => Ok(Frame::Hci),
            4 => Ok(Frame::Hee),
            5 => Ok(Frame::Heeq),
            _ => Err(Refusal::NoSuchFrame),
        }
    }
}

// Three coordinates by name, as a caller reads them.
#[derive(Clone, Copy, Debug, PartialEq, Eq)]
pub struct Coordinates {
    pub x: i64,
    pub y: i64,
    pub z: i64,
}

impl From<[i64; 3]> for Coordinates {
    ghost from_gives = { λ v c. c ≡ as_coordinates v };

    fn from([x, y, z]: [i64; 3]) -> Coordinates {
        Coordinates { x, y, z }
    }
}

// GEI and HCI depend on no date, so their numbers are constants. Each is proved to be the sine or cosine, or the product of
// two, that document 01 asks for.
const GEI: [[i64; 3]; 3] = [
    [1_000_000_000, 0, 0],
    [0, 917_481_729, -397_777_009],
    [0, 397_777_009, 917_481_729],
];

const HCI: [[i64; 3]; 3] = [
    [245_984_036, 969_273_502, 0],
    [-961_523_745, 244_017_288, 126_198_921],
    [122_321_270, -31_042_919, 992_004_572],
];

// RTN has a direction where r is 0.01 au long or longer, and S×R 0.001 of one or longer.
const LEAST_LENGTH: u64 = 100_000;

const LEAST_ACROSS: u64 = 1_000_000;

// The rows that turn HAE into GEI of J2000.
#[tactic(auto, using(crate::proofs::Rows::gei_is))]
pub fn gei() -> [[i64; 3]; 3]
    ensures { result ≡ gei_rows }
{
    GEI
}

// The rows that turn HAE into HCI.
#[tactic(auto, using(crate::proofs::Rows::hci_is))]
pub fn hci() -> [[i64; 3]; 3]
    ensures { result ≡ hci_rows }
{
    HCI
}

// The solar axis, HCI's last row.
#[tactic(auto, using(crate::proofs::Rows::axis_is))]
pub fn solar_axis() -> [i64; 3]
    ensures { result ≡ solar_axis }
{
    HCI[2]
}

// The Earth's place without its z: HEE stands on the J2000 ecliptic.
fn on_ecliptic(earth: [i64; 3]) -> [i64; 3]
    ensures { result ≡ on_ecliptic earth }
{
    [earth[0], earth[1], 0]
}

// The rows that turn HAE into HEE.
#[tactic(auto, unfolding(crate::specs::Frame::hee_rows))]
pub fn hee(earth: [i64; 3]) -> [[i64; 3]; 3]
    requires { PartsWithin 1000000000 earth }
    ensures { result ≡ hee_rows earth }
{
    let x = vectors::unit(on_ecliptic(earth));
    [x, [-x[1], x[0], 0], [0, 0, 1_000_000_000]]
}

// The rows that turn HAE into HEEQ.
#[tactic(auto, unfolding(crate::specs::Frame::heeq_rows))]
pub fn heeq(earth: [i64; 3]) -> [[i64; 3]; 3]
    requires { PartsWithin 1000000000 earth }
    ensures { result ≡ heeq_rows earth }
{
    let axis = solar_axis();
    let y = vectors::unit(vectors::cross(axis, vectors::unit(earth)));
    [vectors::cross(y, axis), y, axis]
}

// The rows that turn HAE into another frame.
#[tactic(auto, unfolding(crate::specs::Frame::rotation_of))]
pub fn rotation(frame: Frame, earth: [i64; 3]) -> [[i64; 3]; 3]
    requires has_rows { HasRows (frame_number frame) }
    requires parts_within { PartsWithin 1000000000 earth }
    ensures { result ≡ rotation_of (frame_number frame) earth }
{
    match frame {
        Frame::Gei => gei(),
        Frame::Hci => hci(),
        Frame::Hee => hee(earth),
        _ => heeq(earth),
    }
}

// Whether there is a frame of this number.
pub fn is_frame(frame: i64) -> bool
    ensures { result ≡ is_frame frame }
{
    integers::is_from_to(1, 5, frame)
}

// Whether a frame goes by the Earth's place: HEE and HEEQ do.
pub fn needs_earth(frame: i64) -> bool
    ensures { result ≡ needs_earth frame }
{
    integers::is_from_to(4, 5, frame)
}

// A vector of HAE in a frame, or back. It may be one that a turn to HAE gives.
#[tactic(auto, unfolding(crate::specs::Frame::hae_turned))]
fn hae_turned(back: bool, frame: Frame, earth: [i64; 3], v: [i64; 3]) -> [i64; 3]
    requires earth_fits { EarthFits (frame_number frame) earth }
    requires no_longer { NoLonger 1732052000 v }
    ensures { result ≡ hae_turned back (frame_number frame) earth v }
{
    if frame == Frame::Hae {
        return v;
    }
    vectors::applied(vectors::way(rotation(frame, earth), back), v)
}

// A vector of one frame in another, by way of HAE. A frame to itself leaves it unchanged.
#[tactic(auto, unfolding(crate::specs::Frame::turned_between))]
pub fn turned_between(from: Frame, to: Frame, earth: [i64; 3], v: [i64; 3]) -> [i64; 3]
    requires from_fits { EarthFits (frame_number from) earth }
    requires to_fits { EarthFits (frame_number to) earth }
    requires parts_within { PartsWithin 1000000000 v }
    ensures { result ≡ turned_between (frame_number from) (frame_number to) earth v }
{
    if from == to {
        return v;
    }
    hae_turned(false, to, earth, hae_turned(true, from, earth, v))
}

// Whether a part of a given vector or place lies within 500,000,000 either way.
fn part_in_limits(z: i64) -> bool
    ensures { result ≡ part_in_limits z }
{
    integers::is_from_to(-500_000_000, 500_000_000, z)
}

// Whether all three parts do.
pub fn in_limits(v: [i64; 3]) -> bool
    ensures { result ≡ in_limits v }
{
    v.iter().all(|&z| part_in_limits(z))
}

// The rows R, T, N.
fn rtn(radial: [i64; 3], tangential: [i64; 3]) -> [[i64; 3]; 3]
    requires parts_within { PartsWithin 1000000000 radial }
    requires parts_within_2 { PartsWithin 1000000000 tangential }
    ensures { result ≡ rtn_of radial tangential }
{
    [radial, tangential, vectors::cross(radial, tangential)]
}

// The rows R, T, N at the place r, or refusal 6 where r or S×R is too short to give a direction.
#[tactic(auto, unfolding(crate::specs::Rtn::rtn_rows, vectors::specs::Vector::unit_of))]
fn rtn_at(r: [i64; 3]) -> Result<[[i64; 3]; 3], Refusal>
    requires { PartsWithin 1000000000 r }
    ensures { result ≡ if has_direction r then Ok (rtn_rows r) else Err NoDirection }
{
    let l = vectors::length(r);
    if l < LEAST_LENGTH {
        return Err(Refusal::NoDirection);
    }
    let radial = vectors::over_length(l, r);
    let across = vectors::cross(solar_axis(), radial);
    let k = vectors::length(across);
    if k < LEAST_ACROSS {
        return Err(Refusal::NoDirection);
    }
    Ok(rtn(radial, vectors::over_length(k, across)))
}

// A vector there or back at the place r. Refusal 5 comes before 6, so that no length is taken of a place too far.
#[tactic(auto, unfolding(crate::specs::Rtn::rtn_turned))]
fn rtn_turned(back: bool, r: [i64; 3], v: [i64; 3]) -> Result<Coordinates, Refusal>
    ensures { result ≡ rtn_turned back r v }
{
    if !in_limits(v) || !in_limits(r) {
        return Err(Refusal::TooFar);
    }
    let rows = rtn_at(r)?;
    Ok(Coordinates::from(vectors::applied(vectors::way(rows, back), v)))
}

// A vector of HAE as R, T, N parts at a spacecraft's place r in HAE.
#[tactic(auto, unfolding(crate::specs::Rtn::to_rtn))]
pub fn to_rtn(r: [i64; 3], v: [i64; 3]) -> Result<Coordinates, Refusal>
    ensures { result ≡ to_rtn r v }
{
    rtn_turned(false, r, v)
}

// R, T, N parts at r as a vector of HAE.
#[tactic(auto, unfolding(crate::specs::Rtn::from_rtn))]
pub fn from_rtn(r: [i64; 3], v: [i64; 3]) -> Result<Coordinates, Refusal>
    ensures { result ≡ from_rtn r v }
{
    rtn_turned(true, r, v)
}

// From a date to a place: the elements of a body, its mean anomaly, and its place in HAE of J2000, by document 01's five steps.
// Elements come from a row of twelve numbers, and the place from elements and a mean anomaly, so that other rows, and a mean anomaly
// with more terms, need no change below.
#![tactic(auto)]

ghost use Rattle.std.specs.Prelude.{◌≡◌, ◌≤◌, pos, ◌+ℤ◌, ◌-ℤ◌, ◌*ℤ◌, Ok, Err, MatchResult};
ghost use Rattle.integers.specs.Range.{Within};
ghost use Rattle.integers.specs.Floor.{floor_div, unit_product, end_turn};
ghost use Rattle.angles.specs.Unit.{millionths, hundred_millionths};
ghost use Rattle.tables.specs.Table.{table_row, table_terms};
ghost use Rattle.tables.specs.Bodies.{body_number};
ghost use Rattle.orbits.specs.Elements.{element_in, elements_at, square_term, periodic_terms, extra_of, mean_anomaly_of, mean_at, argument_of};
ghost use Rattle.orbits.specs.Place.{minor_of, in_plane, coefficients_by, coefficients_of, ecliptic_of, place_of, place_at};
ghost use Rattle.orbits.specs.Range.{RowFits, TermsFit, AxisFits, ElementsFit, Bounded};
ghost use Rattle.orbits.specs.Answer.{body_moment, elements_answer, mean_answer};

use angles::{Angle, Element, Sines};
use dates::Date;
use refusals::Refusal;
use tables::{Body, Moment};

// The six elements of an orbit: semi-major axis in au, eccentricity, and four angles in degrees, each in hundred-millionths.
#[derive(Clone, Copy, Debug, PartialEq, Eq)]
pub struct Elements {
    pub a: Element,
    pub e: Element,
    pub inclination: Element,
    pub longitude: Element,
    pub perihelion: Element,
    pub node: Element,
}

// A place in the plane of the orbit, the x-axis toward the perihelion, in counts of 10^-7 au.
#[derive(Clone, Copy, Debug, PartialEq, Eq)]
pub struct InPlane {
    pub x: i64,
    pub y: i64,
}

// The six coefficients of (8-34), two for each coordinate.
#[derive(Clone, Copy, Debug, PartialEq, Eq)]
pub struct Coefficients {
    pub px: i64,
    pub qx: i64,
    pub py: i64,
    pub qy: i64,
    pub pz: i64,
    pub qz: i64,
}

// Step 1 for element k of a row: its number stands at k, its rate six further.
fn element_in(row: [i64; 12], k: usize, minute: i64) -> Element
    requires row_fits { RowFits row minute }
    requires k_bound { k ≤ 5 }
    ensures { hundred_millionths result ≡ element_in row k minute }
{
    Element::of_hundred_millionths(row[k] + dates::drift(row[k + 6], minute))
}

// Step 1 for the six elements of a row.
pub fn elements_at(row: [i64; 12], minute: i64) -> Elements
    requires { RowFits row minute }
    ensures { result ≡ elements_at row minute }
{
    Elements {
        a: element_in(row, 0, minute),
        e: element_in(row, 1, minute),
        inclination: element_in(row, 2, minute),
        longitude: element_in(row, 3, minute),
        perihelion: element_in(row, 4, minute),
        node: element_in(row, 5, minute),
    }
}

// The term in T² of M, floor(b m / 52,596,000) done twice. It is skipped where b is 0, as for all bodies of Table 1.
fn square_term(b: i64, minute: i64) -> i64
    requires { Within 5000000000 b × Within 2630000000 minute }
    ensures { result ≡ square_term b minute }
{
    if b == 0 {
        return 0;
    }
    dates::drift(dates::drift(b, minute), minute)
}

// The terms in cos(fT) and sin(fT) of M. They are skipped where both numbers before them are 0.
fn periodic_terms(sines: &Sines, c: i64, s: i64, f: i64, minute: i64) -> i64
    requires within { Within 5000000000 c × Within 5000000000 s }
    requires within_2 { Within 5000000000 f × Within 2630000000 minute }
    ensures { result ≡ periodic_terms c s f minute }
{
    if (c == 0) & (s == 0) {
        return 0;
    }
    let phase = Element::of_hundred_millionths(dates::drift(f, minute)).to_angle();
    integers::unit_product(c, sines.cosine(phase)) + integers::unit_product(s, sines.sine(phase))
}

// What the numbers b, c, s and f add to M, in element counts.
fn extra_of(sines: &Sines, terms: [i64; 4], minute: i64) -> Element
    requires { TermsFit terms minute }
    ensures { hundred_millionths result ≡ extra_of terms minute }
{
    let square = square_term(terms[0], minute);
    let periodic = periodic_terms(sines, terms[1], terms[2], terms[3], minute);
    Element::of_hundred_millionths(square + periodic)
}

// Step 2, the mean anomaly in one turn. What a table adds to it is added before the division by 100.
pub fn mean_anomaly_of(elements: Elements, extra: Element) -> Angle
    requires elements_fit { ElementsFit elements }
    requires within { Within 1000000000000000000 (hundred_millionths extra) }
    ensures { millionths result ≡ mean_anomaly_of elements (hundred_millionths extra) }
{
    let plain = elements.longitude.difference(elements.perihelion);
    plain.sum(extra).to_angle().one_turn()
}

// Step 2, the argument of perihelion.
fn argument_of(elements: Elements) -> Angle
    requires { ElementsFit elements }
    ensures { millionths result ≡ argument_of elements }
{
    elements.perihelion.difference(elements.node).to_angle()
}

// Step 4: the minor half-axis of an ellipse of half-axis 1.
fn minor_axis(e: u64) -> i64
    requires { e ≤ 90000000 }
    ensures { result ≡ minor_of (pos e) }
{
    integers::root(1_000_000_000_000_000_000 - 100 * e * e) as i64
}

// Step 4: toward the perihelion.
fn plane_x(a: i64, e: i64, cosine: i64) -> i64
    requires axis_fits { AxisFits a e }
    requires within { Within 1000000000 cosine }
    ensures { result ≡ floor_div (a *ℤ (cosine -ℤ pos 10 *ℤ e)) 10000000000 }
{
    integers::floor_div(a * (cosine - 10 * e), 10_000_000_000)
}

// Step 4: across it.
fn plane_y(a: i64, f: i64, sine: i64) -> i64
    requires within { Within 4500000000 a }
    requires within_2 { Within 1000000000 f }
    requires within_3 { Within 1000000000 sine }
    ensures { result ≡ unit_product (floor_div (a *ℤ f) 10000000000) sine }
{
    integers::unit_product(integers::floor_div(a * f, 10_000_000_000), sine)
}

// Step 4.
fn in_plane(sines: &Sines, a: i64, e: u64, anomaly: Angle) -> InPlane
    requires { AxisFits a (pos e) }
    ensures { result ≡ in_plane a (pos e) (millionths anomaly) }
{
    let f = minor_axis(e);
    InPlane {
        x: plane_x(a, e as i64, sines.cosine(anomaly)),
        y: plane_y(a, f, sines.sine(anomaly)),
    }
}

// Step 5: a ∘ b, and (c ∘ d) ∘ i added to it.
fn product_sum(a: i64, b: i64, c: i64, d: i64, i: i64) -> i64
    requires within { Within 1000000000 a × Within 1000000000 b }
    requires within_2 { Within 1000000000 c × Within 1000000000 d }
    requires within_3 { Within 1000000000 i }
    ensures { result ≡ unit_product a b +ℤ unit_product (unit_product c d) i }
{
    let inner = integers::unit_product(c, d);
    integers::unit_product(a, b) + integers::unit_product(inner, i)
}

// Step 5: the same with the second product taken away.
fn product_difference(a: i64, b: i64, c: i64, d: i64, i: i64) -> i64
    requires within { Within 1000000000 a × Within 1000000000 b }
    requires within_2 { Within 1000000000 c × Within 1000000000 d }
    requires within_3 { Within 1000000000 i }
    ensures { result ≡ unit_product a b -ℤ unit_product (unit_product c d) i }
{
    let inner = integers::unit_product(c, d);
    integers::unit_product(a, b) - integers::unit_product(inner, i)
}

// Step 5: the coefficients of (8-34) from the sines and cosines of the argument of perihelion, the node and the inclination. A
// minus sign before both products is taken before their sum.
fn coefficients_by(sw: i64, cw: i64, sn: i64, cn: i64, si: i64, ci: i64) -> Coefficients
    requires within { Within 1000000000 sw × Within 1000000000 cw }
    requires within_2 { Within 1000000000 sn × Within 1000000000 cn }
    requires within_3 { Within 1000000000 si × Within 1000000000 ci }
    ensures { result ≡ coefficients_by sw cw sn cn si ci }
{
    Coefficients {
        px: product_difference(cw, cn, sw, sn, ci),
        qx: 0 - product_sum(sw, cn, cw, sn, ci),
        py: product_sum(cw, sn, sw, cn, ci),
        qy: 0 - product_difference(sw, sn, cw, cn, ci),
        pz: integers::unit_product(sw, si),
        qz: integers::unit_product(cw, si),
    }
}

fn coefficients_of(sines: &Sines, argument: Angle, node: Angle, inclination: Angle) -> Coefficients
    ensures { result ≡ coefficients_of (millionths argument) (millionths node) (millionths inclination) }
{
    coefficients_by(
        sines.sine(argument),
        sines.cosine(argument),
        sines.sine(node),
        sines.cosine(node),
        sines.sine(inclination),
        sines.cosine(inclination),
    )
}

// Step 5: one coordinate.
fn coordinate(p: i64, q: i64, x: i64, y: i64) -> i64
    requires within { Within 1000000010 p × Within 1000000010 q }
    requires within_2 { Within 500000000 x × Within 450000000 y }
    ensures { result ≡ end_turn (p *ℤ x +ℤ q *ℤ y) }
{
    integers::end_turn(p * x + q * y)
}

// Step 5: the three coordinates.
fn ecliptic(k: Coefficients, x: i64, y: i64) -> [i64; 3]
    requires bounded { Bounded k }
    requires within { Within 500000000 x × Within 450000000 y }
    ensures { result ≡ ecliptic_of k x y }
{
    [
        coordinate(k.px, k.qx, x, y),
        coordinate(k.py, k.qy, x, y),
        coordinate(k.pz, k.qz, x, y),
    ]
}

// Steps 3 to 5: the place in HAE of J2000 by the elements and the mean anomaly.
pub fn place_of(sines: &Sines, elements: Elements, mean: Angle) -> [i64; 3]
    requires { ElementsFit elements }
    ensures { result ≡ place_of elements (millionths mean) }
{
    let size = elements.e.hundred_millionths() as u64;
    let anomaly = kepler::eccentric(sines, size, mean);
    let p = in_plane(sines, elements.a.hundred_millionths(), size, anomaly);
    let k = coefficients_of(
        sines,
        argument_of(elements),
        elements.node.to_angle(),
        elements.inclination.to_angle(),
    );
    ecliptic(k, p.x, p.y)
}

// The elements of a body at a moment.
pub fn elements_of(moment: Moment, body: Body) -> Elements
    ensures { result ≡ elements_at (table_row moment.table (body_number body)) moment.minute }
{
    elements_at(tables::row_of(moment.table, body), moment.minute)
}

// What the moment's table adds to the mean anomaly of a body. Table 1 adds nothing.
fn extra_at(sines: &Sines, moment: Moment, body: Body) -> Element
    ensures { hundred_millionths result ≡ extra_of (table_terms moment.table (body_number body)) moment.minute }
{
    if moment.table == 1 {
        return Element::of_hundred_millionths(0);
    }
    extra_of(sines, tables::terms_of(moment.table, body), moment.minute)
}

// The same for a caller that has no table of sines: it is built where something is to be added, and only there.
fn extra_alone(moment: Moment, body: Body) -> Element
    ensures { hundred_millionths result ≡ extra_of (table_terms moment.table (body_number body)) moment.minute }
{
    if moment.table == 1 {
        return Element::of_hundred_millionths(0);
    }
    extra_at(&Sines::new(), moment, body)
}

// The mean anomaly of a body at a moment.
fn mean_at(moment: Moment, body: Body) -> Angle
    ensures { millionths result ≡ mean_at (table_row moment.table (body_number body)) (table_terms moment.table (body_number body)) moment.minute }
{
    let elements = elements_of(moment, body);
    mean_anomaly_of(elements, extra_alone(moment, body))
}

// The place in HAE of J2000 of a body at a moment.
pub fn place_at(sines: &Sines, moment: Moment, body: Body) -> [i64; 3]
    ensures { result ≡ place_at (table_row moment.table (body_number body)) (table_terms moment.table (body_number body)) moment.minute }
{
    let elements = elements_of(moment, body);
    let extra = extra_at(sines, moment, body);
    place_of(sines, elements, mean_anomaly_of(elements, extra))
}

// The moment of a date and the body of a number, or refusal 1, 11, 2 or 3, in this order.
fn body_moment(date: Date, table: i64, body: i64) -> Result<(Moment, Body), Refusal>
    ensures { MatchResult result
        (λ found. (found.0.table ≡ table) × (body_number found.1 ≡ body) × (body_moment date table body ≡ Ok found.0.minute))
        (λ refusal. body_moment date table body ≡ Err refusal) }
{
    let moment = tables::moment_on(date, table, 0)?;
    let body = Body::try_from(body)?;
    Ok((moment, body))
}

// The six elements of a body on a date.
pub fn elements_on_date(date: Date, table: i64, body: i64) -> Result<Elements, Refusal>
    ensures { result ≡ elements_answer date table body }
{
    body_moment(date, table, body).map(|(moment, body)| elements_of(moment, body))
}

// The mean anomaly of a body on a date, in one turn.
pub fn mean_anomaly(date: Date, table: i64, body: i64) -> Result<Angle, Refusal>
    ensures { result ≡ mean_answer date table body }
{
    let (moment, body) = body_moment(date, table, body)?;
    Ok(mean_at(moment, body))
}

// Vectors of three numbers and rotations of three rows, in which 10^9 stands for one.
#![tactic(auto)]

ghost use Rattle.std.specs.Prelude.{◌≡◌, ◌≤◌, pos, nat_abs, ◌*ℤ◌, ◌<ℤ◌};
ghost use Rattle.integers.specs.Range.{Within};
ghost use Rattle.integers.specs.Triple.{PartsWithin};
ghost use Rattle.integers.specs.Floor.{floor_div};
ghost use Rattle.vectors.specs.Range.{DotFits, TurnFits};
ghost use Rattle.vectors.specs.Vector.{dot_of, applied, column_of, transposed, way_of, square_of, length_of, over_length, unit_of, cross_part, cross_of};

// The sum of the products of two triples.
pub fn dot(a: [i64; 3], v: [i64; 3]) -> i64
    requires { DotFits a v }
    ensures { result ≡ dot_of a v }
{
    a[0] * v[0] + a[1] * v[1] + a[2] * v[2]
}

// A vector turned by the rows of m.
#[tactic(auto, unfolding(crate::specs::Vector::applied))]
pub fn applied(m: [[i64; 3]; 3], v: [i64; 3]) -> [i64; 3]
    requires { TurnFits m v }
    ensures { result ≡ applied m v }
{
    [
        integers::end_turn(dot(m[0], v)),
        integers::end_turn(dot(m[1], v)),
        integers::end_turn(dot(m[2], v)),
    ]
}

// The index is a parameter, so that the exchange is one rule for all columns.
fn column(m: [[i64; 3]; 3], j: usize) -> [i64; 3]
    requires { j ≤ 2 }
    ensures { result ≡ column_of m j }
{
    [m[0][j], m[1][j], m[2][j]]
}

// Rows and columns exchanged.
pub fn transposed(m: [[i64; 3]; 3]) -> [[i64; 3]; 3]
    ensures { result ≡ transposed m }
{
    [column(m, 0), column(m, 1), column(m, 2)]
}

// The rows there, or their exchange back.
pub fn way(m: [[i64; 3]; 3], back: bool) -> [[i64; 3]; 3]
    ensures { result ≡ way_of back m }
{
    if back { transposed(m) } else { m }
}

// The square of a part. Three of them add up to less than 2^64, though not to less than 2^63.
fn square(z: i64) -> u64
    requires { Within 2000000000 z }
    ensures { result ≡ square_of z }
{
    (z * z) as u64
}

// L, the whole root of the sum of squares.
#[tactic(auto, unfolding(crate::specs::Vector::length_of))]
pub fn length(v: [i64; 3]) -> u64
    requires { PartsWithin 2000000000 v }
    ensures value { result ≡ length_of v }
    ensures upper_bound { result ≤ 4294967295 }
{
    integers::root(square(v[0]) + square(v[1]) + square(v[2]))
}

// One part over the length.
fn part_over(z: i64, l: i64) -> i64
    requires within { Within 2000000000 z }
    requires pos_bound { pos 0 <ℤ l }
    ensures { result ≡ floor_div (z *ℤ pos 1000000000) (nat_abs l) }
{
    integers::floor_div(z * 1_000_000_000, l)
}

// A vector over a length, 10^9 standing for one; zeros where the length is 0.
pub fn over_length(l: u64, v: [i64; 3]) -> [i64; 3]
    requires l_bound { l ≤ 4294967295 }
    requires parts_within { PartsWithin 2000000000 v }
    ensures { result ≡ over_length l v }
{
    if l == 0 {
        return [0, 0, 0];
    }
    let d = l as i64;
    [part_over(v[0], d), part_over(v[1], d), part_over(v[2], d)]
}

// The unit vector of v.
#[tactic(auto, unfolding(crate::specs::Vector::unit_of))]
pub fn unit(v: [i64; 3]) -> [i64; 3]
    requires { PartsWithin 2000000000 v }
    ensures { result ≡ unit_of v }
{
    over_length(length(v), v)
}

// The part of a cross product that goes by parts i and j.
fn cross_part(a: [i64; 3], b: [i64; 3], i: usize, j: usize) -> i64
    requires parts_within { PartsWithin 1000000000 a }
    requires parts_within_2 { PartsWithin 1000000000 b }
    requires i_bound { (i ≤ 2) × (j ≤ 2) }
    ensures { result ≡ cross_part a b i j }
{
    integers::floor_div(a[i] * b[j] - a[j] * b[i], 1_000_000_000)
}

// The cross product of two vectors of which 10^9 stands for one.
#[tactic(auto, unfolding(crate::specs::Vector::cross_of))]
pub fn cross(a: [i64; 3], b: [i64; 3]) -> [i64; 3]
    requires parts_within { PartsWithin 1000000000 a }
    requires parts_within_2 { PartsWithin 1000000000 b }
    ensures { result ≡ cross_of a b }
{
    [
        cross_part(a, b, 1, 2),
        cross_part(a, b, 2, 0),
        cross_part(a, b, 0, 1),
    ]
}

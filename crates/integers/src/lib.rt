// Whole-number arithmetic: a number's range, size, sign and bits, floor division of signed numbers, floor(a b / d) where the product does
// not fit 64 bits, the product over 10^9, the division that ends a turn, and the whole square root. The laws on numbers that other crates
// cite stand in proofs/.
#![tactic(auto)]

ghost use Rattle.std.specs.Prelude.{◌≡◌, ◌≤◌, pos, nat_abs, ◌-ℤ◌, ◌*ℤ◌, ◌<ℤ◌};
ghost use Rattle.integers.specs.Range.{is_from_to, ProductFits, SplitFits};
ghost use Rattle.integers.specs.Floor.{floor_div, floor_mod, unit_product, end_turn};
ghost use Rattle.integers.specs.Root.{IsRoot, root_of};
ghost use Rattle.integers.specs.Sign.{signed, opposite_signs};
ghost use Rattle.std.specs.Int.{w64};
ghost use Rattle.std.proofs.Common.{of_z, to_z};

// Whether z is one of the whole numbers from a to b.
pub fn is_from_to(a: i64, b: i64, z: i64) -> bool
    ensures { result ≡ is_from_to a b z }
{
    a <= z && z <= b
}

// The size of any number, also of the least one.
pub fn size(z: i64) -> u64
    ensures { result ≡ nat_abs z }
{
    z.unsigned_abs()
}

// The number of a size, with a sign.
pub fn with_sign(negative: bool, size: u64) -> i64
    requires { size ≤ 9223372036854775807 }
    ensures { result ≡ signed negative size }
{
    let n = size as i64;
    if negative { -n } else { n }
}

// How far apart any two numbers are, also where their difference does not fit 64 bits with its sign.
pub fn distance(a: i64, b: i64) -> u64
    ensures { result ≡ nat_abs (a -ℤ b) }
{
    a.abs_diff(b)
}

// Whether two numbers have opposite signs. Their product may be past 64 bits, and is not formed.
pub fn opposite_signs(a: i64, b: i64) -> bool
    ensures { result ≡ opposite_signs a b }
{
    (a < 0 && 0 < b) || (0 < a && b < 0)
}

// The 64 bits of z in two's complement: below zero, 2^64 less its size.
pub fn bits_of(z: i64) -> u64
    ensures { result ≡ of_z w64 z }
{
    z.cast_unsigned()
}

// The signed number that has these 64 bits.
pub fn of_bits(n: u64) -> i64
    ensures { result ≡ to_z w64 n }
{
    n.cast_signed()
}

// floor(a / d). The machine divides toward zero; where that leaves a rest below zero, the floor is one less. With `div_euclid`, which jumps
// by the sign of a, numbers of changing sign take nearly twice as long.
#[tactic(auto, using(crate::proofs::Division::div_below, crate::proofs::Division::div_not_below))]
pub fn floor_div(a: i64, d: i64) -> i64
    requires { pos 0 <ℤ d }
    ensures { result ≡ floor_div a (nat_abs d) }
{
    let q = a / d;
    if a % d < 0 { q - 1 } else { q }
}

// What floor(a / d) leaves of a: from 0 up to but without d. `rem_euclid` jumps by the sign of a too.
#[tactic(auto, using(crate::proofs::Division::mod_below, crate::proofs::Division::mod_not_below))]
pub fn floor_mod(a: i64, d: i64) -> i64
    requires { pos 0 <ℤ d }
    ensures { result ≡ floor_mod a (nat_abs d) }
{
    let r = a % d;
    if r < 0 { r + d } else { r }
}

// floor(a b / d). With b = q d + s and a = u d + v the product is (a q + u s) d + v s, so only v s is divided.
pub fn mul_div(a: i64, b: i64, d: i64) -> i64
    requires pos_bound { pos 0 <ℤ d }
    requires split_fits { SplitFits a b d }
    ensures { result ≡ floor_div (a *ℤ b) (nat_abs d) }
{
    let q = b / d;
    let s = b % d;
    let u = a / d;
    let v = a % d;
    a * q + u * s + floor_div(v * s, d)
}

// floor(a b / 10^9), document 01's `∘`.
pub fn unit_product(a: i64, b: i64) -> i64
    requires { ProductFits a b }
    ensures { result ≡ unit_product a b }
{
    floor_div(a * b, 1_000_000_000)
}

// z / 10^9 to the nearest whole number, a half away from zero: the division that ends a turn and step 5 (02, Item 4). The half is added to
// the size of z, and the sign put back, so that opposite numbers have opposite ends.
#[tactic(auto, unfolding(crate::specs::Floor::end_turn))]
pub fn end_turn(z: i64) -> i64
    ensures { result ≡ end_turn z }
{
    with_sign(z < 0, (size(z) + 500_000_000) / 1_000_000_000)
}

// The greatest whole number whose square is not above x (02, Item 2): a bit of it, and two bits of x, at a time from the highest, with no
// product and no division. `bit` is the square of the bit that is tried. It is quartered from 2^62 down to 0, so there are 32 rounds at
// most; the first loop passes over those that set no bit. With r the root so far and b the bit, `rest` is x - r², `held` is 2 r b, and
// `taken` is (r + b)² - r². A round has no jump: both outcomes are worked out and one is chosen. `taken - half` is `half + bit`, written
// so since the compiler then chooses between two numbers at once; with `half + bit` a root takes a seventh longer.
pub fn root(x: u64) -> u64
    ensures root { IsRoot x result }
    ensures value { result ≡ root_of x }
{
    let mut bit: u64 = 0x4000_0000_0000_0000;
    while x < bit {
        bit = bit >> 2;
    }
    let mut rest = x;
    let mut held: u64 = 0;
    while 0 < bit {
        let taken = held + bit;
        let half = held >> 1;
        if rest < taken {
            held = half;
        } else {
            rest = rest - taken;
            held = taken - half;
        }
        bit = bit >> 2;
    }
    held
}

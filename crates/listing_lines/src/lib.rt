// The lines of the listing: a line of input read as a request, the answer worked out, and its line printed into lent bytes.
#![tactic(auto)]

ghost use Rattle.std.specs.Prelude.{◌≡◌, true, [], ◌∷◌, ◌++◌, ◌+◌, ◌-◌, ◌*◌, ◌≤◌, ◌<◌, length, position};
ghost use Rattle.listing_lines.specs.Request.{is_space, digit_of, digits_of, whole_of, with_sign, field_of, rest_of, request_of};
ghost use Rattle.listing_lines.specs.Decimal.{decimal_of, signed_of};
ghost use Rattle.listing_lines.specs.Line.{text_of, numbers_of, answer_of, line_of, printed_of};
ghost use Rattle.listing_lines.specs.Put.{Put};
ghost use Rattle.listing_lines.specs.Held.{held_of};
ghost use Rattle.listing_lines.specs.Stream.{last_of, IsFed, IsPrinted};

mod held;

use angles::Sines;
use dates::Date;
use frames::Coordinates;
pub use held::HeldLine;
use refusals::Refusal;
use tables::DEFAULT_TABLE;

// What a line asks for.
#[derive(Clone, Copy, Debug, PartialEq, Eq)]
pub struct Request {
    pub minute: i64,
    pub body: i64,
    pub frame: i64,
}

// The number of a digit's byte.
fn digit(b: u8) -> Option<u64>
    ensures { result ≡ digit_of b }
{
    if b.is_ascii_digit() {
        Some(u64::from(b - b'0'))
    } else {
        None
    }
}

// The number that one to ten digits, and nothing else, stand for.
#[tactic(auto, using(crate::proofs::Scan::none, crate::proofs::Scan::too_many))]
fn digits_in(text: &[u8]) -> Option<u64>
    ensures { result ≡ digits_of text.now }
{
    if !(1..=10).contains(&text.len()) {
        return None;
    }
    let mut n = 0;
    for &b in text {
        n = n * 10 + digit(b)?;
    }
    Some(n)
}

fn whole(negative: bool, text: &[u8]) -> Option<i64>
    ensures { result ≡ with_sign negative (digits_of text.now) }
{
    let n = digits_in(text)?;
    Some(integers::with_sign(negative, n))
}

// Digits, behind a minus sign or without one.
fn number_in(text: &[u8]) -> Option<i64>
    ensures { result ≡ whole_of text.now }
{
    match text.strip_prefix(b"-") {
        Some(digits) => whole(true, digits),
        None => whole(false, text),
    }
}

// Where the first space stands.
fn space_in(text: &[u8]) -> Option<usize>
    ensures { result ≡ position is_space text.now }
{
    text.iter().position(|&b| b == b' ')
}

// The bytes before the first space, and those behind it: none, where there is no space.
fn split_field(text: &[u8]) -> (&[u8], &[u8])
    ensures field { result.0.now ≡ field_of text.now }
    ensures rest { result.1.now ≡ rest_of text.now }
{
    match space_in(text) {
        Some(end) => (&text[..end], &text[end + 1..]),
        None => (text, &[]),
    }
}

// The request of a line, which comes without its line end.
pub fn request_in(line: &[u8]) -> Option<Request>
    ensures { result ≡ request_of line.now }
{
    let (minute, rest) = split_field(line);
    let (body, frame) = split_field(rest);
    Some(Request {
        minute: number_in(minute)?,
        body: number_in(body)?,
        frame: number_in(frame)?,
    })
}

// One byte at byte `at`, and the byte behind it.
fn put_byte(b: u8, bytes: &mut [u8], at: usize) -> usize
    requires { at < length bytes.old }
    ensures { Put at (b ∷ []) bytes.old bytes.new result }
{
    bytes[at] = b;
    at + 1
}

fn digit_byte(n: u64) -> u8
    requires { n < 10 }
    ensures { result ≡ 48 + n }
{
    48 + (n as u8)
}

// A number's digits from byte `at` on: those of its tenth, then its last.
fn put_decimal(n: u64, bytes: &mut [u8], at: usize) -> usize
    requires { at + length (decimal_of n) ≤ length bytes.old }
    ensures { Put at (decimal_of n) bytes.old bytes.new result }
{
    if n < 10 {
        return put_byte(digit_byte(n), bytes, at);
    }
    let next = put_decimal(n / 10, bytes, at);
    put_byte(digit_byte(n % 10), bytes, next)
}

// A number with its sign, in at most 20 bytes.
fn put_number(z: i64, bytes: &mut [u8], at: usize) -> usize
    requires { at + 20 ≤ length bytes.old }
    ensures { Put at (signed_of z) bytes.old bytes.new result × (result ≤ at + 20) }
{
    if z < 0 {
        let next = put_byte(b'-', bytes, at);
        return put_decimal(integers::size(z), bytes, next);
    }
    put_decimal(integers::size(z), bytes, at)
}

// A number and the byte that ends it.
fn put_field(z: i64, end: u8, bytes: &mut [u8], at: usize) -> usize
    requires { at + 21 ≤ length bytes.old }
    ensures { Put at (signed_of z ++ (end ∷ [])) bytes.old bytes.new result × (result ≤ at + 21) }
{
    let next = put_number(z, bytes, at);
    put_byte(end, bytes, next)
}

// The seven numbers of a line.
fn put_numbers(numbers: [i64; 7], bytes: &mut [u8], at: usize) -> usize
    requires { at + 147 ≤ length bytes.old }
    ensures { Put at (text_of numbers) bytes.old bytes.new result × (result ≤ at + 147) }
{
    let mut next = at;
    for &n in &numbers[..6] {
        next = put_field(n, b' ', bytes, next);
    }
    put_field(numbers[6], b'\n', bytes, next)
}

fn numbers_of(body: i64, frame: i64, answer: Result<(i64, Coordinates), Refusal>) -> [i64; 7]
    ensures { result ≡ numbers_of body frame answer }
{
    match answer {
        Ok((minute, p)) => [minute, body, frame, 0, p.x, p.y, p.z],
        Err(refusal) => [0, 0, 0, refusal.number(), 0, 0, 0],
    }
}

fn answer_to(sines: &Sines, request: Option<Request>) -> [i64; 7]
    ensures { result ≡ answer_of request }
{
    match request {
        Some(asked) => {
            let Request {
                minute,
                body,
                frame,
            } = asked;
            let date = Date::Minutes(minute);
            let answer = places::place_after(sines, date, DEFAULT_TABLE, 0, body, frame);
            numbers_of(body, frame, answer)
        }
        None => [0, 0, 0, Refusal::NoRow.number(), 0, 0, 0],
    }
}

// The printed line of a request from byte `at` on, at most 147 bytes with its line end, and the byte behind it.
pub fn put_line(sines: &Sines, request: Option<Request>, bytes: &mut [u8], at: usize) -> usize
    requires { at + 147 ≤ length bytes.old }
    ensures { Put at (line_of request) bytes.old bytes.new result × (result ≤ at + 147) }
{
    put_numbers(answer_to(sines, request), bytes, at)
}

// The printed line of what is held of a line.
fn put_held(sines: &Sines, line: &[u8], bytes: &mut [u8], at: usize) -> usize
    requires { at + 147 ≤ length bytes.old }
    ensures { Put at (printed_of line.now) bytes.old bytes.new result × (result ≤ at + 147) }
{
    put_line(sines, request_in(line), bytes, at)
}

// A part of the input: the lines that end in it are printed, at most 147 bytes for a byte, and what follows the last is held.
// The result is the byte behind what is printed.
pub fn feed(sines: &Sines, part: &[u8], held: &mut HeldLine, bytes: &mut [u8], at: usize) -> usize
    requires { at + 147 * length part.now ≤ length bytes.old }
    ensures fed { IsFed held.old part.now held.new }
    ensures printed { IsPrinted (held_of held.old) part.now at bytes.old bytes.new result }
{
    let mut next = at;
    for &b in part {
        if b == b'\n' {
            next = put_held(sines, held.bytes(), bytes, next);
            held.clear();
        } else {
            held.push(b);
        }
    }
    next
}

// The end of the input: what is held is a line without its end, where it is not empty.
pub fn put_last(sines: &Sines, line: &[u8], bytes: &mut [u8], at: usize) -> usize
    requires { at + 147 ≤ length bytes.old }
    ensures { Put at (last_of line.now) bytes.old bytes.new result × (result ≤ at + 147) }
{
    if line.is_empty() {
        return at;
    }
    put_held(sines, line, bytes, at)
}

// Numbers in bytes. A layout is the list of its fields' widths; one writer and one reader go by it, whatever it is.
#![tactic(auto)]

ghost use Rattle.std.specs.Prelude.{◌≡◌, ◌++◌, ◌≤◌, T, length, drop};
ghost use Rattle.layouts.specs.Bytes.{big_endian, big_number};
ghost use Rattle.layouts.specs.Layout.{total, narrow, bytes_of, numbers_in, are_zeros};

// The low bytes of n, as many as are lent, the high one first. They are put from the end on.
fn put_number(n: u64, bytes: &mut [u8])
    ensures { bytes.new ≡ big_endian (length bytes.old) n }
{
    let mut rest = n;
    for i in (0..bytes.len()).rev() {
        bytes[i] = (rest % 256) as u8;
        rest /= 256;
    }
}

// The number in the bytes that are lent, the high one first.
fn number_in(bytes: &[u8]) -> u64
    requires { length bytes.now ≤ 8 }
    ensures { result ≡ big_number bytes.now }
{
    let mut n = 0;
    for byte in bytes {
        n = n * 256 + u64::from(*byte);
    }
    n
}

// The numbers into fields of these widths, one after the other from the first byte on. Bytes after them stay.
pub fn put_numbers(widths: &[usize], numbers: &[i64], bytes: &mut [u8])
    requires widths_len { length widths.now ≡ length numbers.now }
    requires widths_in_bounds { total widths.now ≤ length bytes.old }
    ensures { bytes.new ≡ bytes_of widths.now numbers.now ++ drop (total widths.now) bytes.old }
{
    let mut at = 0;
    for (i, width) in widths.iter().enumerate() {
        let end = at + *width;
        put_number(integers::bits_of(numbers[i]), &mut bytes[at..end]);
        at = end;
    }
}

// The numbers that stand in fields of these widths, one after the other from the first byte on.
pub fn numbers_in(widths: &[usize], bytes: &[u8], numbers: &mut [i64])
    requires widths_len { length widths.now ≡ length numbers.old }
    requires widths_in_bounds { total widths.now ≤ length bytes.now }
    requires t { T (narrow widths.now) }
    ensures { numbers.new ≡ numbers_in widths.now bytes.now }
{
    let mut at = 0;
    for (i, width) in widths.iter().enumerate() {
        let end = at + *width;
        numbers[i] = integers::of_bits(number_in(&bytes[at..end]));
        at = end;
    }
}

// Whether all of these numbers are 0.
pub fn are_zeros(numbers: &[i64]) -> bool
    ensures { result ≡ are_zeros numbers.now }
{
    numbers.iter().all(|n| *n == 0)
}

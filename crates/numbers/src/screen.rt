// What is written: a number in decimal and two spaces, a newline, and the prompt, each put whole at a place of the output
// or not at all.
ghost use Rattle.std.specs.Prelude.{◌≡◌, ◌++◌, ◌+◌, ◌%◌, ◌≤◌, length, take, pos, nat_abs, leb};
ghost use Rattle.numbers.specs.Screen.{decimal, written, newline, prompt};
ghost use Rattle.numbers.specs.Answers.{Puts};

use crate::arithmetic::magnitude;
use crate::refusal::Refusal;

// How many spaces stand behind a number.
const SPACES: usize = 2;

// How many digits n has: they are counted by fours.
pub fn digit_count(n: u64) -> usize
    ensures { result ≡ length (decimal (pos n)) }
{
    let mut counted = 0;
    let mut m = n;
    while 10_000 <= m {
        counted = counted + 4;
        m = m / 10_000;
    }
    if m < 10 {
        return counted + 1;
    }
    if m < 100 {
        return counted + 2;
    }
    if m < 1_000 {
        return counted + 3;
    }
    counted + 4
}

// How many bytes the decimal of x has.
pub fn decimal_length(x: i64) -> usize
    ensures { result ≡ length (decimal x) }
{
    let digits = digit_count(magnitude(x));
    if x < 0 {
        return digits + 1;
    }
    digits
}

// The last digit of n.
fn last_digit(n: u64) -> u8
    ensures { result ≡ 48 + n % 10 }
{
    b'0' + (n % 10) as u8
}

// Fills a part of the output, as long as n has digits, with these: two a turn, from the last to the first.
pub fn fill_digits(part: &mut [u8], n: u64)
    requires { length part.old ≡ length (decimal (pos n)) }
    ensures { part.new ≡ decimal (pos n) }
{
    let mut left = part.len();
    let mut m = n;
    while 2 <= left {
        let pair = m % 100;
        part[left - 1] = last_digit(pair);
        part[left - 2] = last_digit(pair / 10);
        m = m / 100;
        left = left - 2;
    }
    if left == 1 {
        part[0] = last_digit(m);
    }
}

// Writes the minus of a negative number at the front of its part, and tells how many bytes that took.
fn fill_sign(part: &mut [u8], x: i64) -> usize
    requires { length part.old ≡ length (decimal x) }
    ensures { (result ≤ length part.new) × (take result part.new ++ decimal (pos (nat_abs x)) ≡ decimal x) }
{
    if x < 0 {
        part[0] = b'-';
        return 1;
    }
    0
}

// Fills a part of the output, as long as the decimal of x, with it.
pub fn fill_decimal(part: &mut [u8], x: i64)
    requires { length part.old ≡ length (decimal x) }
    ensures { part.new ≡ decimal x }
{
    let start = fill_sign(part, x);
    fill_digits(&mut part[start..], magnitude(x));
}

// Whether so many bytes fit at a place of the output.
pub fn has_room(room: usize, at: usize, count: usize) -> bool
    ensures { result ≡ leb (at + count) room }
{
    at <= room && count <= room - at
}

// Puts bytes at a place of the output, and tells where the next go; or they do not fit, and nothing is changed.
fn put_bytes(out: &mut [u8], at: usize, bytes: &[u8]) -> Result<usize, Refusal>
    ensures { Puts bytes.now at out.old out.new result }
{
    if !has_room(out.len(), at, bytes.len()) {
        return Err(Refusal::OutputFull);
    }
    let end = at + bytes.len();
    out[at..end].copy_from_slice(bytes);
    Ok(end)
}

// "Write: the decimal number and two spaces": the room for all of it is tested before the first byte.
pub fn put_number(out: &mut [u8], at: usize, x: i64) -> Result<usize, Refusal>
    ensures { Puts (written x) at out.old out.new result }
{
    let count = decimal_length(x);
    if !has_room(out.len(), at, count + SPACES) {
        return Err(Refusal::OutputFull);
    }
    let end = at + count;
    fill_decimal(&mut out[at..end], x);
    put_bytes(out, end, b"  ")
}

// "Newline: one byte 10"
pub fn put_newline(out: &mut [u8], at: usize) -> Result<usize, Refusal>
    ensures { Puts newline at out.old out.new result }
{
    put_bytes(out, at, b"\n")
}

// "Read prints `<== Please input: `"
pub fn put_prompt(out: &mut [u8], at: usize) -> Result<usize, Refusal>
    ensures { Puts prompt at out.old out.new result }
{
    put_bytes(out, at, b"<== Please input: ")
}

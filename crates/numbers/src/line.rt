// Entry lines: the line that starts at a place of the input, its field as a part of that line, and the number that the
// field means.
ghost use Rattle.std.specs.Prelude.{◌≡◌, ◌≤◌};
ghost use Rattle.numbers.specs.Limits.{greatest, least_magnitude};
ghost use Rattle.numbers.specs.Line.{line, field, magnitude, plus, minus, value_of};
ghost use Rattle.numbers.specs.Answers.{option_of, line_entry, Takes};

use crate::bytes::{is_blank, is_digit};
use crate::refusal::Refusal;

// The magnitudes of the greatest and of the least number.
const POSITIVE_MAGNITUDE: u64 = i64::MAX as u64;

const NEGATIVE_MAGNITUDE: u64 = POSITIVE_MAGNITUDE + 1;

// A value above this times 10 is above every magnitude of an i64.
const MOST_BEFORE_DIGIT: u64 = POSITIVE_MAGNITUDE / 10;

// The first line of s, without its end: a part of s itself.
pub fn line(s: &[u8]) -> &[u8]
    ensures { result.now ≡ line s.now }
{
    let end = s.iter().position(|b| *b == b'\n').unwrap_or(s.len());
    &s[..end]
}

// The first run of bytes between blanks: a part of s itself.
pub fn field(s: &[u8]) -> &[u8]
    ensures { result.now ≡ field s.now }
{
    let start = s.iter().position(|b| !is_blank(*b)).unwrap_or(s.len());
    let rest = &s[start..];
    let end = rest.iter().position(|b| is_blank(*b)).unwrap_or(rest.len());
    &rest[..end]
}

// Digits, at least one, all of them, up to a bound.
pub fn read_digits(s: &[u8], most: u64) -> Option<u64>
    requires { most ≤ least_magnitude }
    ensures { option_of result ≡ magnitude most s.now }
{
    if s.is_empty() {
        return None;
    }
    let mut v: u64 = 0;
    for b in s {
        if !is_digit(*b) || MOST_BEFORE_DIGIT < v {
            return None;
        }
        v = v * 10 + u64::from(*b - b'0');
    }
    if v <= most { Some(v) } else { None }
}

fn positive(s: &[u8]) -> Option<i64>
    ensures { option_of result ≡ plus (magnitude greatest s.now) }
{
    let n = read_digits(s, POSITIVE_MAGNITUDE)?;
    Some(n as i64)
}

fn negative(s: &[u8]) -> Option<i64>
    ensures { option_of result ≡ minus (magnitude least_magnitude s.now) }
{
    let n = read_digits(s, NEGATIVE_MAGNITUDE)?;
    0_i64.checked_sub_unsigned(n)
}

// "one optional sign, then digits, within i64"
pub fn number(s: &[u8]) -> Option<i64>
    ensures { option_of result ≡ value_of s.now }
{
    match s {
        [] => None,
        [b'-', digits @ ..] => negative(digits),
        [b'+', digits @ ..] => positive(digits),
        _ => positive(s),
    }
}

// What a whole line means.
fn judge(l: &[u8]) -> Option<i64>
    ensures { option_of result ≡ line_entry l.now }
{
    if !l.iter().all(|b| b.is_ascii()) {
        return None;
    }
    number(field(l))
}

// The number on the line that starts at a place of the input, and where the next line starts.
pub fn next_entry(input: &[u8], at: usize) -> Result<(i64, usize), Refusal>
    ensures { Takes input.now at result }
{
    if input.len() <= at {
        return Err(Refusal::BadEntry);
    }
    let l = line(&input[at..]);
    let z = judge(l).ok_or(Refusal::BadEntry)?;
    let end = at + l.len();
    if end < input.len() {
        Ok((z, end + 1))
    } else {
        Ok((z, end))
    }
}

// What the words of a case mean.
ghost use Rattle.std.specs.Prelude.{◌≤◌, length, IfSome};
ghost use Rattle.protocol.specs.Codes.{EquallyLong};

use numbers::line::number;
use pcode::Code;

// The number of NIL, and so of each kind that is not there.
const NO_KIND: i8 = -1;

fn hex_digit(b: u8) -> Option<u8>
    ensures { IfSome result (λ d. d ≤ 15) }
{
    match b {
        b'0'..=b'9' => Some(b - b'0'),
        b'a'..=b'f' => Some(b - b'a' + 10),
        _ => None,
    }
}

// Bytes in hexadecimal, two digits each, read into a lent list; `-` where there are none.
pub fn read_bytes<'a>(word: &[u8], into: &'a mut [u8]) -> Option<&'a [u8]>
    ensures { IfSome result (λ s. length s.now ≤ length into.old) }
{
    if word == b"-".as_slice() {
        return Some(&[]);
    }
    let n = word.len() / 2;
    if n == 0 || n * 2 != word.len() {
        return None;
    }
    let bytes = into.get_mut(..n)?;
    for (byte, pair) in bytes.iter_mut().zip(word.chunks_exact(2)) {
        *byte = hex_digit(pair[0])? * 16 + hex_digit(pair[1])?;
    }
    Some(bytes)
}

// A decimal number from 0 up to a bound.
pub fn read_number(word: &[u8], most: u32) -> Option<u32>
    ensures { IfSome result (λ n. n ≤ most) }
{
    let n = u32::try_from(number(word)?).ok()?;
    if n <= most { Some(n) } else { None }
}

// The kind of a number: one that an i8 does not hold becomes one that 01 does not name.
fn kind_of(z: i64) -> i8 {
    match z {
        0..=127 => z as i8,
        _ => NO_KIND,
    }
}

// `KIND,LEVEL,OPERAND`
fn read_place(s: &[u8]) -> Option<(i8, u16, i64)> {
    let mut parts = s.split(|b| *b == b',');
    let kind = number(parts.next()?)?;
    let level = u16::try_from(number(parts.next()?)?).ok()?;
    let operand = number(parts.next()?)?;
    match parts.next() {
        Some(_) => None,
        None => Some((kind_of(kind), level, operand)),
    }
}

// Places joined by `;`, read into three lent lists; `-` where there are none. None also where the levels or the operands
// have less room than the kinds.
pub fn read_code<'a>(
    word: &[u8],
    kinds: &'a mut [i8],
    levels: &'a mut [u16],
    operands: &'a mut [i64],
) -> Option<Code<'a>>
    ensures { IfSome result (λ code. (length code.kinds.now ≤ length kinds.old) × EquallyLong code) }
{
    if word == b"-".as_slice() {
        return Some(Code {
            kinds: &[],
            levels: &[],
            operands: &[],
        });
    }
    if levels.len() < kinds.len() || operands.len() < kinds.len() {
        return None;
    }
    let mut n = 0;
    for place in word.split(|b| *b == b';') {
        let (kind, level, operand) = read_place(place)?;
        *kinds.get_mut(n)? = kind;
        *levels.get_mut(n)? = level;
        *operands.get_mut(n)? = operand;
        n += 1;
    }
    Some(Code {
        kinds: &kinds[..n],
        levels: &levels[..n],
        operands: &operands[..n],
    })
}

// The words of an answer, each put on the answer's page. What does not fit is left out.
ghost use Rattle.desk.specs.Page.{SameRoom};

use desk::page::Page;
use numbers::screen::decimal_length;
use pcode::Code;

// The two spaces that follow a number on the screen.
const SPACES: usize = 2;

const DIGITS: [u8; 16] = *b"0123456789abcdef";

// Bytes in hexadecimal, two digits each; `-` where there are none.
pub fn put_bytes(page: &mut Page<'_>, s: &[u8])
    ensures { SameRoom page.old page.new }
{
    if s.is_empty() {
        page.put_byte(b'-');
    }
    for b in s {
        page.put_byte(DIGITS[(*b / 16) as usize]);
        page.put_byte(DIGITS[(*b % 16) as usize]);
    }
}

// A decimal number, where there is room for it as on the screen.
pub fn put_number(page: &mut Page<'_>, x: i64)
    ensures { SameRoom page.old page.new }
{
    if decimal_length(x) <= page.left().saturating_sub(SPACES) {
        page.put_number(x);
    }
}

// Values joined by `,`, trailing zeros left off; `-` where all are zero.
pub fn put_values(page: &mut Page<'_>, values: &[i64])
    ensures { SameRoom page.old page.new }
{
    let Some(last) = values.iter().rposition(|x| *x != 0) else {
        page.put_byte(b'-');
        return;
    };
    put_number(page, values[0]);
    for x in &values[1..=last] {
        page.put_byte(b',');
        put_number(page, *x);
    }
}

// A blank and a count.
pub fn put_count(page: &mut Page<'_>, n: usize)
    ensures { SameRoom page.old page.new }
{
    page.put_byte(b' ');
    if let Ok(n) = i64::try_from(n) {
        put_number(page, n);
    }
}

// Places joined by `;`, each `KIND,LEVEL,OPERAND`; `-` where there are none.
pub fn put_code(page: &mut Page<'_>, code: Code<'_>)
    ensures { SameRoom page.old page.new }
{
    if code.len() == 0 {
        page.put_byte(b'-');
    }
    for i in 0..code.len() {
        if 0 < i {
            page.put_byte(b';');
        }
        put_number(page, i64::from(code.kinds[i]));
        page.put_byte(b',');
        put_number(page, i64::from(code.levels[i]));
        page.put_byte(b',');
        put_number(page, code.operands[i]);
    }
}

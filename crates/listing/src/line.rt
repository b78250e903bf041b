// The line of an instruction: how long it is, and how it is put, whole or not at all.
ghost use Rattle.std.specs.Prelude.{◌≡◌, ◌+◌, ◌≤◌, length};
ghost use Rattle.numbers.specs.Bytes.{bytes};
ghost use Rattle.numbers.specs.Screen.{decimal};
ghost use Rattle.numbers.specs.Answers.{Wrote, Puts};
ghost use Rattle.pcode.specs.Code.{Op, ins};
ghost use Rattle.pcode.specs.Coded.{op_of, instr_of};
ghost use Rattle.listing.specs.Listing.{letters, right_aligned, line_of};

use numbers::refusal::Refusal;
use numbers::screen::{decimal_length, digit_count, fill_decimal, fill_digits, has_room};
use pcode::{Instruction, Kind};

// The least width of a column.
const COLUMN: usize = 4;

// The bytes of a line beside its two columns and its operand: `| `, three letters, a space, three spaces and the newline.
const FIXED: usize = 10;

// The three letters of a kind.
fn letters_of(kind: Kind) -> [u8; 3]
    ensures { result ≡ bytes (letters (op_of kind)) }
{
    match kind {
        Kind::Nil => *b"NIL",
        Kind::Lit => *b"LIT",
        Kind::Opr => *b"OPR",
        Kind::Lod => *b"LOD",
        Kind::Sto => *b"STO",
        Kind::Sta => *b"STA",
        Kind::Cal => *b"CAL",
        Kind::Int => *b"INT",
        Kind::Jmp => *b"JMP",
        Kind::Jpc => *b"JPC",
        Kind::Red => *b"RED",
        Kind::Wrt => *b"WRT",
    }
}

// How many bytes a number takes in a column.
#[tactic(auto, using(crate::proofs::Columns::column_short, crate::proofs::Columns::column_long))]
fn column_length(n: u64) -> usize
    ensures { result ≡ length (right_aligned n) }
{
    digit_count(n).max(COLUMN)
}

// Fills a part of the line, as long as the column of n, with it: blanks first, and the digits over the last of them.
fn fill_column(part: &mut [u8], n: u64)
    requires { length part.old ≡ length (right_aligned n) }
    ensures { part.new ≡ right_aligned n }
{
    part[..COLUMN].copy_from_slice(b"    ");
    let first = part.len() - digit_count(n);
    fill_digits(&mut part[first..], n);
}

// How many bytes the line of an instruction has, of whatever kind.
fn line_length(index: u64, level: u16, operand: i64) -> usize
    ensures { (o : Op) → result ≡ length (line_of index (ins o level operand)) }
{
    column_length(index) + column_length(u64::from(level)) + decimal_length(operand) + FIXED
}

// Writes a text at a place of the output, and tells where the next bytes go.
fn write_text(out: &mut [u8], at: usize, text: &[u8]) -> usize
    requires { at + length text.now ≤ length out.old }
    ensures { Wrote text.now at out.old out.new result }
{
    let end = at + text.len();
    out[at..end].copy_from_slice(text);
    end
}

// So a column.
fn write_column(out: &mut [u8], at: usize, n: u64) -> usize
    requires { at + length (right_aligned n) ≤ length out.old }
    ensures { Wrote (right_aligned n) at out.old out.new result }
{
    let end = at + column_length(n);
    fill_column(&mut out[at..end], n);
    end
}

// So a number.
fn write_decimal(out: &mut [u8], at: usize, x: i64) -> usize
    requires { at + length (decimal x) ≤ length out.old }
    ensures { Wrote (decimal x) at out.old out.new result }
{
    let end = at + decimal_length(x);
    fill_decimal(&mut out[at..end], x);
    end
}

// So the line of an instruction, piece by piece.
fn write_line(out: &mut [u8], at: usize, index: u64, i: Instruction) -> usize
    requires { at + length (line_of index (instr_of i)) ≤ length out.old }
    ensures { Wrote (line_of index (instr_of i)) at out.old out.new result }
{
    let letters = letters_of(i.kind);
    let at = write_column(out, at, index);
    let at = write_text(out, at, b"| ");
    let at = write_text(out, at, &letters);
    let at = write_text(out, at, b" ");
    let at = write_column(out, at, u64::from(i.level));
    let at = write_text(out, at, b"   ");
    let at = write_decimal(out, at, i.operand);
    write_text(out, at, b"\n")
}

// Puts the line of an instruction at a place of the output, if it fits there: the room for all of it is tested before the
// first byte.
pub fn put_line(out: &mut [u8], at: usize, index: u64, i: Instruction) -> Result<usize, Refusal>
    ensures { Puts (line_of index (instr_of i)) at out.old out.new result }
{
    if !has_room(out.len(), at, line_length(index, i.level, i.operand)) {
        return Err(Refusal::OutputFull);
    }
    Ok(write_line(out, at, index, i))
}

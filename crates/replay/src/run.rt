// Cases `ID run CODE INPUT BUDGET ROOM`, answered `ID run NUMBER OUTLEN LINES STEPS OUTPUT CELLS`.
ghost use Rattle.desk.specs.Page.{SameRoom};

use crate::lines::{MOST_BYTES, MOST_PLACES, has_words};
use desk::page::Page;
use machine::Ended;
use numbers::limits::CELLS;
use protocol::print::{put_bytes, put_count, put_values};
use protocol::read::{read_bytes, read_code, read_number};

// The words of a case.
const WORDS: usize = 6;

// Answers a case of a run; None where the line is none.
pub fn answer_run(line: &[u8], answer: &mut Page<'_>) -> Option<()>
    ensures { SameRoom answer.old answer.new }
{
    if !has_words(line, WORDS) {
        return None;
    }
    let mut words = line.split(|b| *b == b' ');
    let name = words.next()?;
    let _sort = words.next()?;
    let mut kinds = [0; MOST_PLACES];
    let mut levels = [0; MOST_PLACES];
    let mut operands = [0; MOST_PLACES];
    let code = read_code(words.next()?, &mut kinds, &mut levels, &mut operands)?;
    let mut input = [0; MOST_BYTES];
    let input = read_bytes(words.next()?, &mut input)?;
    let budget = read_number(words.next()?, u32::MAX)?;
    let room = read_number(words.next()?, MOST_BYTES as u32)? as usize;
    let mut out = [0; MOST_BYTES];
    let mut cells = [0; CELLS];
    let ended = machine::run(
        code.kinds,
        code.levels,
        code.operands,
        input,
        budget,
        &mut out[..room],
        &mut cells,
    );
    put_ended(answer, name, b" run", ended, &out, &cells)
}

// Puts how a run or a walk ended: NAME SORT NUMBER OUTLEN LINES STEPS OUTPUT VALUES
pub fn put_ended(
    answer: &mut Page<'_>,
    name: &[u8],
    sort: &[u8],
    ended: Ended,
    out: &[u8],
    values: &[i64],
) -> Option<()>
    ensures { SameRoom answer.old answer.new }
{
    let out = out.get(..ended.out_len)?;
    answer.put(name);
    answer.put(sort);
    put_count(answer, ended.number as usize);
    put_count(answer, ended.out_len);
    put_count(answer, ended.lines);
    put_count(answer, ended.steps as usize);
    answer.put(b" ");
    put_bytes(answer, out);
    answer.put(b" ");
    put_values(answer, values);
    Some(())
}

// Cases `ID compile TEXT`, answered `ID compile NUMBER LENGTH CODE`.
ghost use Rattle.desk.specs.Page.{SameRoom};

use crate::lines::{MOST_TEXT, has_words};
use desk::page::Page;
use engine::Compiled;
use numbers::limits::{DRAFT_PLACES, MAX_CODE, TABLE_PLACES, TREE_PLACES};
use pcode::Code;
use protocol::print::{put_code, put_count};
use protocol::read::read_bytes;

// The words of a case.
const WORDS: usize = 3;

// Compiles a text over working room of its own.
fn compiled(text: &[u8], kinds: &mut [i8], levels: &mut [u16], operands: &mut [i64]) -> Compiled {
    let mut tree = [0; TREE_PLACES];
    let mut table = [0; TABLE_PLACES];
    let mut draft = [0; DRAFT_PLACES];
    engine::compile(
        text, kinds, levels, operands, &mut tree, &mut table, &mut draft,
    )
}

// Answers a case of compile; None where the line is none.
pub fn answer_compile(line: &[u8], answer: &mut Page<'_>) -> Option<()>
    ensures { SameRoom answer.old answer.new }
{
    if !has_words(line, WORDS) {
        return None;
    }
    let mut words = line.split(|b| *b == b' ');
    let name = words.next()?;
    let _sort = words.next()?;
    let mut text = [0; MOST_TEXT];
    let text = read_bytes(words.next()?, &mut text)?;
    let mut kinds = [0; MAX_CODE];
    let mut levels = [0; MAX_CODE];
    let mut operands = [0; MAX_CODE];
    let made = compiled(text, &mut kinds, &mut levels, &mut operands);
    let code = Code {
        kinds: kinds.get(..made.length)?,
        levels: levels.get(..made.length)?,
        operands: operands.get(..made.length)?,
    };
    answer.put(name);
    answer.put(b" compile");
    put_count(answer, made.number as usize);
    put_count(answer, made.length);
    answer.put(b" ");
    put_code(answer, code);
    Some(())
}

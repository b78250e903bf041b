// Cases `ID walk TEXT INPUT BUDGET ROOM`, answered `ID walk NUMBER OUTLEN LINES STEPS OUTPUT VARIABLES`.
ghost use Rattle.desk.specs.Page.{SameRoom};

use crate::lines::{MOST_BYTES, MOST_TEXT, has_words};
use crate::run::put_ended;
use desk::page::Page;
use machine::Ended;
use numbers::limits::{DRAFT_PLACES, MAX_ROWS, TABLE_PLACES, TREE_PLACES};
use protocol::read::{read_bytes, read_number};

// The words of a case.
const WORDS: usize = 6;

// Walks a text over working room of its own.
fn walked(text: &[u8], input: &[u8], budget: u32, out: &mut [u8], vars: &mut [i64]) -> Ended {
    let mut tree = [0; TREE_PLACES];
    let mut table = [0; TABLE_PLACES];
    let mut draft = [0; DRAFT_PLACES];
    engine::walk(
        text, input, budget, out, vars, &mut tree, &mut table, &mut draft,
    )
}

// Answers a case of a walk; None where the line is none.
pub fn answer_walk(line: &[u8], answer: &mut Page<'_>) -> Option<()>
    ensures { SameRoom answer.old answer.new }
{
    if !has_words(line, WORDS) {
        return None;
    }
    let mut words = line.split(|b| *b == b' ');
    let name = words.next()?;
    let _sort = words.next()?;
    let mut text = [0; MOST_TEXT];
    let text = read_bytes(words.next()?, &mut text)?;
    let mut input = [0; MOST_BYTES];
    let input = read_bytes(words.next()?, &mut input)?;
    let budget = read_number(words.next()?, u32::MAX)?;
    let room = read_number(words.next()?, MOST_BYTES as u32)? as usize;
    let mut out = [0; MOST_BYTES];
    let mut vars = [0; MAX_ROWS];
    let ended = walked(text, input, budget, &mut out[..room], &mut vars);
    put_ended(answer, name, b" walk", ended, &out, &vars)
}

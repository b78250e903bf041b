// Cases `ID listed CODE ROOM`, answered `ID listed NUMBER OUTLEN OUTPUT`.
ghost use Rattle.desk.specs.Page.{SameRoom};

use crate::lines::{MOST_PLACES, has_words};
use desk::page::Page;
use pcode::Code;
use protocol::print::{put_bytes, put_count};
use protocol::read::{read_code, read_number};

// "In `listed` ROOM is at most 262,144"
const MOST_ROOM: usize = 262144;

// The words of a case.
const WORDS: usize = 4;

// Answers a case of a listing; None where the line is none.
pub fn answer_listed(line: &[u8], answer: &mut Page<'_>) -> Option<()>
    ensures { SameRoom answer.old answer.new }
{
    if !has_words(line, WORDS) {
        return None;
    }
    let mut words = line.split(|b| *b == b' ');
    let name = words.next()?;
    let _sort = words.next()?;
    let mut kinds = [0; MOST_PLACES];
    let mut levels = [0; MOST_PLACES];
    let mut operands = [0; MOST_PLACES];
    let code = read_code(words.next()?, &mut kinds, &mut levels, &mut operands)?;
    let room = room_of(words.next()?)?;
    put_listed(answer, name, code, &mut [0; MOST_ROOM], room)
}

// Puts a listing over a room of so many bytes: NAME listed NUMBER OUTLEN OUTPUT
fn put_listed(
    answer: &mut Page<'_>,
    name: &[u8],
    code: Code<'_>,
    out: &mut [u8],
    room: usize,
) -> Option<()>
    ensures { SameRoom answer.old answer.new }
{
    let out = out.get_mut(..room)?;
    let listed = listing::list(code.kinds, code.levels, code.operands, out);
    let out = out.get(..listed.out_len)?;
    answer.put(name);
    answer.put(b" listed");
    put_count(answer, listed.number as usize);
    put_count(answer, listed.out_len);
    answer.put(b" ");
    put_bytes(answer, out);
    Some(())
}

// ROOM. The cases have a room of one byte less than a listing, also where that has none: no byte is lent then.
fn room_of(word: &[u8]) -> Option<usize> {
    if word == b"-1".as_slice() {
        return Some(0);
    }
    Some(read_number(word, MOST_ROOM as u32)? as usize)
}

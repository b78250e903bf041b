// Replays the example sheets: each with its entries, held to the output and the number that it must give. The words are
// four to a case: a sheet, its entries, its output, its number.
#![tactic(auto)]

ghost use Rattle.std.specs.Prelude.{◌<◌};

use desk::files::read_file;
use desk::words::{BUDGET, count_of};
use engine::Compiled;
use numbers::limits::{CELLS, DRAFT_PLACES, MAX_CODE, MAX_SOURCE, TABLE_PLACES, TREE_PLACES};
use std::env::FillError;
use std::rt::Env;

// Words to a case.
const WORDS: usize = 4;

// A source, and one byte more, so that a longer one is seen and refused with 1.
const SOURCE: usize = MAX_SOURCE + 1;

// More bytes than an example's entries or output have.
const ROOM: usize = 4096;

// Compiles a sheet over working room of its own.
fn compiled(text: &[u8], kinds: &mut [i8], levels: &mut [u16], operands: &mut [i64]) -> Compiled {
    let mut tree = [0; TREE_PLACES];
    let mut table = [0; TABLE_PLACES];
    let mut draft = [0; DRAFT_PLACES];
    engine::compile(
        text, kinds, levels, operands, &mut tree, &mut table, &mut draft,
    )
}

// Whether the sheet, with these entries, ends with the number and writes what is wanted.
fn gives(text: &[u8], entries: &[u8], wanted: &[u8], number: u8) -> bool {
    let mut kinds = [0; MAX_CODE];
    let mut levels = [0; MAX_CODE];
    let mut operands = [0; MAX_CODE];
    let made = compiled(text, &mut kinds, &mut levels, &mut operands);
    if made.number != 0 {
        return false;
    }
    let mut out = [0; ROOM];
    let mut cells = [0; CELLS];
    let kinds = &kinds[..made.length.min(MAX_CODE)];
    let ended = machine::run(
        kinds, &levels, &operands, entries, BUDGET, &mut out, &mut cells,
    );
    ended.number == number && &out[..ended.out_len.min(ROOM)] == wanted
}

// How many words there are, with the program's own name.
fn count_words(rt: &HostRuntime) -> usize {
    let mut word = io::buffer();
    for i in 0..usize::MAX {
        if let Err(FillError::NotPresent) = rt.arg(i, &mut word) {
            return i;
        }
    }
    usize::MAX
}

// The word at a place; none of its bytes where it is too long.
fn word_at<'a>(rt: &HostRuntime, i: usize, room: &'a mut [u8]) -> &'a [u8] {
    let n = rt.arg(i, room).unwrap_or(0);
    &room[..n]
}

// The file that the word at a place names; where it cannot be read to its end, what was read of it.
fn file_at<'a>(rt: &HostRuntime, i: usize, room: &'a mut [u8]) -> &'a [u8] {
    let mut name = io::buffer();
    match read_file(rt, word_at(rt, i, &mut name), room) {
        Ok(text) => text,
        Err(cut) => cut.text,
    }
}

// The number that the word at a place means.
fn number_at(rt: &HostRuntime, i: usize) -> Option<u8> {
    let mut word = io::buffer();
    let number = count_of(word_at(rt, i, &mut word))?;
    u8::try_from(number).ok()
}

// Whether the case whose words begin at a place gives what it must.
fn is_right(rt: &HostRuntime, place: usize) -> bool
    requires { place < 18446744073709551612 }
{
    let mut text = [0; SOURCE];
    let mut entries = [0; ROOM];
    let mut wanted = [0; ROOM];
    let text = file_at(rt, place, &mut text);
    let entries = file_at(rt, place + 1, &mut entries);
    let wanted = file_at(rt, place + 2, &mut wanted);
    match number_at(rt, place + 3) {
        Some(number) => gives(text, entries, wanted, number),
        None => false,
    }
}

// Says how the case whose words begin at a place went.
fn replay(rt: &HostRuntime, place: usize)
    requires { place < 18446744073709551612 }
{
    let mut name = io::buffer();
    let _ = rt.write_all(word_at(rt, place, &mut name));
    if is_right(rt, place) {
        let _ = rt.write_all(b" gives what it must\n");
    } else {
        let _ = rt.write_all(b" DOES NOT GIVE what it must\n");
    }
}

fn main(rt: HostRuntime) {
    let cases = count_words(&rt).saturating_sub(1) / WORDS;
    for case in 0..cases {
        replay(&rt, 1 + case * WORDS);
    }
}

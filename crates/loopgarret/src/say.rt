// What the program says besides what a sheet writes. It goes to standard error; what was asked for goes to standard output.
use desk::page::Page;
use desk::table::status_of;
use std::io::{Error, Result};

// The status for bad usage, an unreadable file or a failed write.
pub const UNUSABLE: u8 = 3;

// A file name, and a message around it.
const PAGE: usize = 8192;

const TRY_HELP: &[u8] = b"\nTry `loopgarret --help`.\n";

// Writes what was asked for, and gives the status.
pub fn answer(rt: &HostRuntime, text: &[u8]) -> u8 {
    match written(rt, text) {
        Ok(()) => 0,
        Err(reason) => unwritten(rt, reason),
    }
}

// Writes to standard output.
pub fn written(rt: &HostRuntime, text: &[u8]) -> Result<()> {
    rt.stdout().write_all(text)
}

// Standard output cannot be written.
pub fn unwritten(rt: &HostRuntime, reason: Error) -> u8 {
    failed(rt, b"loopgarret: standard output", reason)
}

// Writes a message, where it can be written, and gives the status for what cannot be used.
pub fn complain(rt: &HostRuntime, text: &[u8]) -> u8 {
    let _ = rt.stderr().write_all(text);
    UNUSABLE
}

// Writes a message of several parts.
fn complain_of(rt: &HostRuntime, parts: &[&[u8]]) -> u8 {
    let mut room = [0; PAGE];
    let mut page = Page::new(&mut room);
    for part in parts {
        page.put(part);
    }
    complain(rt, page.text())
}

// A call failed on what is named, for that reason.
pub fn failed(rt: &HostRuntime, what: &[u8], reason: Error) -> u8 {
    let mut room = [0; PAGE];
    let mut page = Page::new(&mut room);
    page.put(what);
    page.put(b": ");
    put_reason(rt, &mut page, reason);
    page.put(b"\n");
    complain(rt, page.text())
}

// Puts the reason in words, without the system's number for it.
fn put_reason(rt: &HostRuntime, page: &mut Page<'_>, reason: Error) {
    let Ok(words) = reason.to_string(rt.alloc()) else {
        page.put(b"there is no memory to say why");
        return;
    };
    match words.as_str().split_once(" (os error ") {
        Some((words, _number)) => page.put(words.as_bytes()),
        None => page.put(words.as_bytes()),
    }
}

// A word is not understood where it stands.
pub fn not_understood(rt: &HostRuntime, word: &[u8]) -> u8 {
    complain_of(
        rt,
        &[
            b"loopgarret: this word cannot be taken here: ",
            word,
            TRY_HELP,
        ],
    )
}

// A word does not fit the room for one.
pub fn too_long(rt: &HostRuntime) -> u8 {
    complain(
        rt,
        b"loopgarret: a word of over 4096 bytes cannot be taken.\n",
    )
}

// The number behind --budget is missing, or is none.
pub fn no_number(rt: &HostRuntime) -> u8 {
    complain_of(
        rt,
        &[
            b"loopgarret: --budget wants a number from 0 to 4294967295.",
            TRY_HELP,
        ],
    )
}

// The first word is no command.
pub fn no_command(rt: &HostRuntime, word: &[u8]) -> u8 {
    complain_of(rt, &[b"loopgarret: no such command: ", word, TRY_HELP])
}

// A command that wants a sheet has none.
pub fn no_sheet(rt: &HostRuntime) -> u8 {
    complain_of(
        rt,
        &[b"loopgarret: the name of a sheet is missing.", TRY_HELP],
    )
}

// A command that wants no sheet has one.
pub fn sheet_too_many(rt: &HostRuntime) -> u8 {
    complain_of(rt, &[b"loopgarret: numbers takes no sheet.", TRY_HELP])
}

// A message behind the sheet's name.
pub fn of_sheet(rt: &HostRuntime, name: &[u8], text: &[u8]) {
    complain_of(rt, &[name, text]);
}

// The table of numbers.
pub fn table(rt: &HostRuntime) -> u8 {
    let mut room = [0; PAGE];
    let mut page = Page::new(&mut room);
    page.put_table();
    answer(rt, page.text())
}

// The sheet's name, the number and what it means.
pub fn refusal(rt: &HostRuntime, name: &[u8], number: u8) -> u8 {
    let mut room = [0; PAGE];
    let mut page = Page::new(&mut room);
    page.put_refusal(name, number);
    complain(rt, page.text());
    status_of(number)
}

// The sheet is accepted.
pub fn accepted(rt: &HostRuntime, name: &[u8], instructions: usize) -> u8 {
    let mut room = [0; PAGE];
    let mut page = Page::new(&mut room);
    page.put(name);
    page.put(b": accepted, ");
    page.put_count(instructions as u64);
    page.put(b" instructions\n");
    answer(rt, page.text())
}

// Lines taken and steps completed.
pub fn counts(rt: &HostRuntime, name: &[u8], lines: usize, steps: u32) {
    let mut room = [0; PAGE];
    let mut page = Page::new(&mut room);
    page.put(name);
    page.put(b": ");
    page.put_count(lines as u64);
    page.put(b" lines taken, ");
    page.put_count(u64::from(steps));
    page.put(b" steps\n");
    complain(rt, page.text());
}

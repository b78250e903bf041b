// What is done with a sheet: it is read, compiled, and then listed, accepted, run or walked.
use crate::calls::compiled;
use crate::ending::{both, run, walk};
use crate::say;
use desk::files::read_file;
use desk::page::Page;
use desk::words::{Asked, Command};
use numbers::limits::{MAX_CODE, MAX_SOURCE};
use pcode::Code;

// A source, and one byte more, so that a longer one is seen and refused with 1.
const SOURCE: usize = MAX_SOURCE + 1;

// The longest listing: 4,096 lines of at most 40 bytes.
const LISTING: usize = 163840;

// A sheet, and what is asked for with it.
#[derive(Clone, Copy)]
pub struct Sheet<'a> {
    pub asked: Asked,
    pub name: &'a [u8],
    pub text: &'a [u8],
}

// Reads the sheet of that name, and carries the command out.
pub fn open(rt: &HostRuntime, command: Command, asked: Asked, name: &[u8]) -> u8 {
    let mut room = [0; SOURCE];
    match read_file(rt, name, &mut room) {
        Ok(text) => compile(rt, command, Sheet { asked, name, text }),
        Err(cut) => say::failed(rt, name, cut.reason),
    }
}

// The sheet is there; its code is made.
fn compile(rt: &HostRuntime, command: Command, sheet: Sheet<'_>) -> u8 {
    let mut kinds = [0; MAX_CODE];
    let mut levels = [0; MAX_CODE];
    let mut operands = [0; MAX_CODE];
    let made = compiled(sheet.text, &mut kinds, &mut levels, &mut operands);
    if made.number != 0 {
        return say::refusal(rt, sheet.name, made.number);
    }
    let code = Code {
        kinds: &kinds[..made.length.min(MAX_CODE)],
        levels: &levels,
        operands: &operands,
    };
    carry_out(rt, command, sheet, code)
}

// The sheet is accepted, and this is its code: as long as the shortest of its three parts.
fn carry_out(rt: &HostRuntime, command: Command, sheet: Sheet<'_>, code: Code<'_>) -> u8 {
    match command {
        Command::Check => say::accepted(rt, sheet.name, code.len()),
        Command::Compile => list(rt, code),
        Command::Walk => walk(rt, sheet),
        Command::Both => both(rt, sheet, code),
        _ => run(rt, sheet, code),
    }
}

// Prints the instructions.
fn list(rt: &HostRuntime, code: Code<'_>) -> u8 {
    let mut room = [0; LISTING];
    let mut page = Page::new(&mut room);
    page.put_listing(code);
    say::answer(rt, page.text())
}

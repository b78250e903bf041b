// Standard input, line by line: as much is read at a time as there is room for, and what is left of the last line is kept
// for the next time.
ghost use Rattle.std.specs.Prelude.{◌<◌, ◌≤◌, length, IfSome};

use crate::compile::answer_compile;
use crate::lists::answer_listed;
use crate::run::answer_run;
use crate::walks::answer_walk;
use desk::page::Page;
use std::io;
use std::io::Read;

// "A text has at most 40,000 bytes"
pub const MOST_TEXT: usize = 40000;

// "a code list at most 5,000 places"
pub const MOST_PLACES: usize = 5000;

// The most bytes of input, and of output.
pub const MOST_BYTES: usize = 65536;

// What was read and is not answered: the room's first `have` bytes, and whether they are what remains of a line too long.
#[derive(Drop)]
struct Lines<'a> {
    room: &'a mut [u8],
    have: usize,
    is_long: bool,
    ghost within: { have ≤ length room.now },
}

// Whether a line has so many words.
pub fn has_words(line: &[u8], count: usize) -> bool {
    line.split(|b| *b == b' ').count() == count
}

// The answer to a case, by its sort; None where the line is none.
fn answer_case(line: &[u8], answer: &mut Page<'_>) -> Option<()> {
    match line.split(|b| *b == b' ').nth(1)? {
        b"run" => answer_run(line, answer),
        b"compile" => answer_compile(line, answer),
        b"walk" => answer_walk(line, answer),
        b"listed" => answer_listed(line, answer),
        _ => None,
    }
}

// Where the first line ends.
fn line_end(s: &[u8]) -> Option<usize>
    ensures { IfSome result (λ n. n < length s.now) }
{
    s.iter().position(|b| *b == b'\n')
}

// Writes an answer and a newline.
fn write_answer<P: Print>(output: &P, answer: &mut Page<'_>) -> io::Result<()> {
    answer.put(b"\n");
    output.write_all(answer.text())
}

// Answers `ID unknown`.
fn answer_unknown<P: Print>(output: &P, line: &[u8], room: &mut [u8]) -> io::Result<()> {
    let mut answer = Page::new(room);
    if let Some(name) = line.split(|b| *b == b' ').next() {
        answer.put(name);
    }
    answer.put(b" unknown");
    write_answer(output, &mut answer)
}

// Answers a line. An empty line is no case.
fn answer_line<P: Print>(output: &P, line: &[u8], room: &mut [u8]) -> io::Result<()> {
    if line.is_empty() {
        return Ok(());
    }
    let mut answer = Page::new(room);
    match answer_case(line, &mut answer) {
        Some(()) => write_answer(output, &mut answer),
        None => answer_unknown(output, line, room),
    }
}

impl Lines<'_> {
    // Reads behind the bytes that are there, and tells how many bytes were read.
    fn read<I: Read>(&mut self, input: &mut I) -> io::Result<usize> {
        let got = input.read(&mut self.room[self.have..])?;
        self.have += got;
        Ok(got)
    }

    // Answers the line that the input ends in.
    fn answer_last<P: Print>(&self, output: &P, answer: &mut [u8]) -> io::Result<()> {
        if self.is_long {
            return Ok(());
        }
        answer_line(output, &self.room[..self.have], answer)
    }

    // Answers the lines that are whole, and moves what is left to the front. A failed write does not keep the later lines
    // from their answers; the first failure is returned.
    fn answer_whole<P: Print>(&mut self, output: &P, answer: &mut [u8]) -> io::Result<()> {
        let have = self.have;
        let mut at = 0;
        let mut outcome = Ok(());
        while let Some(n) = line_end(&self.room[at..have]) {
            let end = at + n;
            if !self.is_long {
                outcome = outcome.and(answer_line(output, &self.room[at..end], answer));
            }
            self.is_long = false;
            at = end + 1;
        }
        self.room.copy_within(at..have, 0);
        self.have = have - at;
        outcome
    }

    // A line that fills the room is too long: it is answered by its name, and what remains of it is skipped.
    fn cut_long<P: Print>(&mut self, output: &P, answer: &mut [u8]) -> io::Result<()> {
        if self.have < self.room.len() {
            return Ok(());
        }
        if !self.is_long {
            answer_unknown(output, self.room, answer)?;
        }
        self.have = 0;
        self.is_long = true;
        Ok(())
    }
}

// Answers every case on standard input, and returns the first error that reading or writing gives. Such an error ends the
// reading after the turn that it comes in. A loop has to end: this one counts its turns, up to a number that no run comes
// to.
pub fn serve<R: Input + Print>(rt: &R, text: &mut [u8], answer: &mut [u8]) -> io::Result<()> {
    let mut input = rt.reader();
    let mut lines = Lines {
        room: text,
        have: 0,
        is_long: false,
    };
    for _ in 0..u64::MAX {
        match lines.read(&mut input) {
            Ok(0) => return lines.answer_last(rt, answer),
            Ok(_) => {}
            Err(error) => {
                let _ = lines.answer_last(rt, answer);
                return Err(error);
            }
        }
        let answered = lines.answer_whole(rt, answer);
        answered.and(lines.cut_long(rt, answer))?;
    }
    Ok(())
}

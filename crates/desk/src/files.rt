// Reading a file whole. What is read no contract can say; it lies within the room.
ghost use Rattle.std.specs.Prelude.{◌-◌, ◌≤◌, length, IfOk, IfErr};

use std::fs;
use std::io::{Error, ErrorKind, Read, Result};
use std::rt::Files;

// A file that was not read whole: what was read of it, and why no more was.
#[derive(Clone, Copy)]
pub struct Cut<'a> {
    pub text: &'a [u8],
    pub reason: Error,
}

// Reads once, behind the first `used` bytes of the room, and tells how many bytes were read.
pub fn read_more<R: Read>(from: &mut R, room: &mut [u8], used: usize) -> Result<usize>
    ensures { IfOk result (λ n. n ≤ length room.old - used) }
{
    if room.len() <= used {
        return Ok(0);
    }
    from.read(&mut room[used..])
}

// Reads to the end of the file, or until the room is full; tells how many bytes were read, and how the reading ended.
fn read_to_end<R: Read>(from: &mut R, room: &mut [u8]) -> (usize, Result<()>)
    ensures { result.0 ≤ length room.old }
{
    let mut used = 0;
    while used < room.len() {
        match read_more(from, room, used) {
            Ok(0) => break,
            Ok(more) => used += more,
            Err(reason) => return (used, Err(reason)),
        }
    }
    (used, Ok(()))
}

// Reads the file of that name, which must be UTF-8 text.
pub fn read_file<'a, R: Files>(
    rt: &R,
    path: &[u8],
    room: &'a mut [u8],
) -> std::result::Result<&'a [u8], Cut<'a>>
    ensures read { IfOk result (λ text. length text.now ≤ length room.old) }
    ensures cut { IfErr result (λ cut. length cut.text.now ≤ length room.old) }
{
    let Ok(path) = str::from_utf8(path) else {
        let reason = Error::new(ErrorKind::InvalidInput, "a name that is not UTF-8 text");
        return Err(Cut { text: &[], reason });
    };
    let mut file = match fs::open(rt, path) {
        Ok(file) => file,
        Err(reason) => return Err(Cut { text: &[], reason }),
    };
    let (n, end) = read_to_end(&mut file, room);
    let text = &room[..n];
    match end {
        Ok(()) => Ok(text),
        Err(reason) => Err(Cut { text, reason }),
    }
}

// What a step comes to.
use crate::frames::Frame;

// A step goes on or halts with a frame; or it has something to exchange with the outside, for which there are cells: a
// number to write, a newline, or a line to read into a cell. These stand here flat and not as a `Talk`, whose tag would
// lie over the frame's first word: docs/PERFORMANCE.md.
#[derive(Clone, Copy)]
pub enum Does {
    Next(Frame),
    Halt(Frame),
    Write(i64),
    NewLine,
    Read(usize),
}

// Reads cases on standard input, a case to a line, and writes an answer to each. A case that cannot be read, or that is
// of no known sort, is answered by its name and `unknown`.
#![tactic(auto)]

mod compile;
mod lines;
mod lists;
mod run;
mod walks;

ghost use Rattle.std.specs.Prelude.{◌≡◌, length};

use std::io;

// Room for the longest line, and for 1 MiB beside it.
const TEXT: usize = 1572864;

// Room for the longest answer.
const ANSWER: usize = 524288;

// Room of that many bytes. The contract gives only the length, which lending the array as a slice needs.
fn room<const N: usize>() -> [u8; N]
    ensures { N ≡ length result }
{
    [0; N]
}

fn main(rt: HostRuntime) -> io::Result<()> {
    let mut text = room::<TEXT>();
    let mut answer = room::<ANSWER>();
    lines::serve(&rt, &mut text, &mut answer)
}

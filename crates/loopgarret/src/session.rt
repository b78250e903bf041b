// Running or walking a sheet with entries that come one after the other.
//
// The engine takes all entries at once. So the sheet is run with the entries so far, first with none; what is new of its
// output is shown; and where the run ended for want of a line, more is read and the sheet is run again from the start. A
// run is determined by its entries, so what it wrote before begins what it writes now. At a terminal the prompt is shown
// before the entry is typed: it is what the next run writes there, once the entry is taken. A refused read writes no
// prompt, so after a bad entry, or the end of the entries, the prompt shown is the one difference from a run with all
// entries at once; it is what the Rust shows.
ghost use Rattle.std.specs.Prelude.{◌≡◌, length, take};

use crate::say::{complain, written};
use desk::entries::{wants_line, whole_lines};
use desk::files::read_more;
use machine::Ended;
use std::io::{Error, IsTerminal, Result as Written};

// Bytes of output, as those of entries: io::large_buffer has them.
const OUTPUT_ROOM: usize = 65536;

const PROMPT: [u8; 18] = *b"<== Please input: ";

// Turns of the session: a turn that is not the last reads a byte at least.
const TURNS: usize = 65538;

// Where the session stands.
#[derive(Clone, Copy, PartialEq, Eq)]
enum Stage {
    // more entries may come
    Open,
    // no more entries will come
    Over,
    // the answer is there
    Done,
}

// The session so far: bytes of entries, bytes of the screen that are shown, and the last answer.
#[derive(Clone, Copy)]
pub struct State {
    stage: Stage,
    pub used: usize,
    shown: usize,
    pub ended: Ended,
}

// Why a session has no answer.
#[derive(Clone, Copy)]
pub enum Trouble {
    // standard output cannot be written
    Unwritten(Error),
    // standard input cannot be read
    Unread(Error),
    // the entries do not fit their room
    Full,
}

// The entries that the engine is lent: whole lines, and all of them once no more can come.
fn lent(stage: Stage, entries: &[u8]) -> &[u8]
    ensures { result.now ≡ take (length result.now) entries.now }
{
    if stage == Stage::Over {
        return entries;
    }
    &entries[..whole_lines(entries)]
}

// Shows what is new of the output, of which so many bytes are shown.
fn show_new(rt: &HostRuntime, out: &[u8], end: usize, shown: usize) -> Written<()> {
    let to = end.min(out.len());
    let from = shown.min(to);
    written(rt, &out[from..to])
}

// Shows the prompt at a terminal, unless it is shown already, and tells how much of the screen is shown then.
fn prompted(rt: &HostRuntime, end: usize, shown: usize) -> usize {
    if end < shown {
        return shown;
    }
    if !rt.stdin().is_terminal() {
        return end;
    }
    let _ = written(rt, &PROMPT);
    end.min(OUTPUT_ROOM) + PROMPT.len()
}

// At a terminal, the end of the entries leaves the line of the prompt open.
fn end_line(rt: &HostRuntime) {
    if rt.stdin().is_terminal() {
        complain(rt, b"\n");
    }
}

// Reads more entries.
fn read_on(rt: &HostRuntime, state: State, entries: &mut [u8]) -> Result<State, Trouble> {
    let shown = prompted(rt, state.ended.out_len, state.shown);
    if entries.len() <= state.used {
        return Err(Trouble::Full);
    }
    match read_more(&mut rt.stdin(), entries, state.used) {
        Ok(0) => {
            end_line(rt);
            Ok(State {
                stage: Stage::Over,
                shown,
                ..state
            })
        }
        Ok(n) => Ok(State {
            used: state.used + n,
            shown,
            ..state
        }),
        Err(reason) => Err(Trouble::Unread(reason)),
    }
}

// One turn: the sheet with the entries so far, what is new of its output, and where it wants a line, more entries.
fn turn<F: Fn(&[u8], &mut [u8]) -> Ended>(
    rt: &HostRuntime,
    step: &F,
    before: State,
    entries: &mut [u8],
    out: &mut [u8],
) -> Result<State, Trouble>
    requires { F.IsAlwaysCallable step.now }
{
    let taken = lent(before.stage, &entries[..before.used.min(entries.len())]);
    let ended = step(taken, out);
    if let Err(reason) = show_new(rt, out, ended.out_len, before.shown) {
        return Err(Trouble::Unwritten(reason));
    }
    let now = State { ended, ..before };
    if before.stage == Stage::Over {
        return Ok(State {
            stage: Stage::Done,
            ..now
        });
    }
    if !wants_line(ended.number, ended.lines, taken) {
        return Ok(State {
            stage: Stage::Done,
            used: taken.len(),
            ..now
        });
    }
    read_on(rt, now, entries)
}

// The whole session: the step is the sheet run or walked with entries, into the output. It has more turns than its room
// for entries allows.
pub fn session<F: Fn(&[u8], &mut [u8]) -> Ended>(
    rt: &HostRuntime,
    step: F,
    entries: &mut [u8],
    out: &mut [u8],
) -> Result<State, Trouble>
    requires { F.IsAlwaysCallable step }
{
    let mut now = State {
        stage: Stage::Open,
        used: 0,
        shown: 0,
        ended: Ended {
            number: 0,
            out_len: 0,
            lines: 0,
            steps: 0,
        },
    };
    for _ in 0..TURNS {
        now = turn(rt, &step, now, entries, out)?;
        if now.stage == Stage::Done {
            return Ok(now);
        }
    }
    Err(Trouble::Full)
}

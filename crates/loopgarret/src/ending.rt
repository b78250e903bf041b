// Running, walking and both: the session, what is said of its answer, the comparison with a walk, and the status.
use crate::calls::{run_once, walk_once};
use crate::say;
use crate::say::UNUSABLE;
use crate::session::{State, Trouble, session};
use crate::sheet::Sheet;
use machine::Ended;
use numbers::refusal::Refusal;
use pcode::Code;

// Runs the sheet's code.
pub fn run(rt: &HostRuntime, sheet: Sheet<'_>, code: Code<'_>) -> u8 {
    let budget = sheet.asked.budget;
    play(rt, sheet, |entries: &[u8], out: &mut [u8]| {
        run_once(code, entries, budget, out)
    })
}

// Works the sheet out on its tree.
pub fn walk(rt: &HostRuntime, sheet: Sheet<'_>) -> u8 {
    let text = sheet.text;
    let budget = sheet.asked.budget;
    play(rt, sheet, |entries: &[u8], out: &mut [u8]| {
        walk_once(text, entries, budget, out)
    })
}

// Runs the sheet's code, and then walks it with the same entries.
pub fn both(rt: &HostRuntime, sheet: Sheet<'_>, code: Code<'_>) -> u8 {
    let budget = sheet.asked.budget;
    let mut entries = io::large_buffer();
    let mut out = io::large_buffer();
    let ran = session(
        rt,
        |entries: &[u8], out: &mut [u8]| run_once(code, entries, budget, out),
        &mut entries,
        &mut out,
    );
    match ran {
        Ok(last) => {
            let told = tell(rt, sheet, last.ended);
            let compared = compare(rt, sheet, last, &entries, &out);
            if compared == 0 { told } else { compared }
        }
        Err(trouble) => stuck(rt, trouble),
    }
}

// A session by that step, what is said of its answer, and the status.
fn play<F: Fn(&[u8], &mut [u8]) -> Ended>(rt: &HostRuntime, sheet: Sheet<'_>, step: F) -> u8
    requires { F.IsAlwaysCallable step }
{
    let mut entries = io::large_buffer();
    let mut out = io::large_buffer();
    match session(rt, step, &mut entries, &mut out) {
        Ok(last) => tell(rt, sheet, last.ended),
        Err(trouble) => stuck(rt, trouble),
    }
}

// What is said of an answer, and the status.
fn tell(rt: &HostRuntime, sheet: Sheet<'_>, ended: Ended) -> u8 {
    if sheet.asked.steps {
        say::counts(rt, sheet.name, ended.lines, ended.steps);
    }
    if ended.number == 0 {
        return 0;
    }
    say::refusal(rt, sheet.name, ended.number)
}

// What is said where there is no answer, and the status.
fn stuck(rt: &HostRuntime, trouble: Trouble) -> u8 {
    match trouble {
        Trouble::Unwritten(reason) => say::unwritten(rt, reason),
        Trouble::Unread(reason) => say::failed(rt, b"loopgarret: standard input", reason),
        Trouble::Full => say::complain(rt, b"loopgarret: more than 65536 bytes of entries\n"),
    }
}

// Walks a sheet that was run, with the same entries, says whether the two agree, and gives the status.
fn compare(rt: &HostRuntime, sheet: Sheet<'_>, last: State, entries: &[u8], out: &[u8]) -> u8 {
    let mut other = io::large_buffer();
    let entries = &entries[..last.used.min(entries.len())];
    let walked = walk_once(sheet.text, entries, sheet.asked.budget, &mut other);
    if walked.number == Refusal::ProcedureInTree.number() {
        return say::refusal(rt, sheet.name, walked.number);
    }
    if agree(last.ended, walked, out, &other) {
        say::of_sheet(rt, sheet.name, b": run and walk agree\n");
        return 0;
    }
    say::of_sheet(rt, sheet.name, b": run and walk differ\n");
    UNUSABLE
}

// Whether a run and a walk ended alike: in number, lines, steps and every byte.
fn agree(ran: Ended, walked: Ended, out: &[u8], other: &[u8]) -> bool {
    let n = ran.out_len;
    walked.number == ran.number
        && walked.out_len == n
        && walked.lines == ran.lines
        && walked.steps == ran.steps
        && &out[..n.min(out.len())] == &other[..n.min(other.len())]
}

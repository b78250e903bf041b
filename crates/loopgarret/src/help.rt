// The pages of help.
use crate::say::{answer, complain};
use desk::words::Command;

// All commands.
pub fn all(rt: &HostRuntime) -> u8 {
    answer(
        rt,
        b"\
loopgarret: compiles and runs rule sheets in PL/0

  loopgarret run SHEET      compile a sheet and run it
  loopgarret walk SHEET     work it out on its tree instead
  loopgarret both SHEET     run it and walk it, and say whether they agree
  loopgarret check SHEET    say whether the sheet is accepted
  loopgarret compile SHEET  print its instructions
  loopgarret numbers        print what the numbers of refusals mean

run, walk and both take the entries from standard input, a line each; at a terminal they prompt for each.
  --budget N                end after N steps, 0 to 4294967295 (10000000 if not given)
  --steps                   say how many lines were taken and how many steps completed

Each command has a page of its own: loopgarret run --help
Status: 0 done, 1 a refused sheet, 2 a refused run, 3 bad usage or an unreadable file
",
    )
}

// No word at all.
pub fn wanted(rt: &HostRuntime) -> u8 {
    complain(
        rt,
        b"loopgarret: a command is wanted: run, walk, both, check, compile or numbers.\nTry `loopgarret --help`.\n",
    )
}

// The page of a command.
pub fn of(rt: &HostRuntime, command: Command) -> u8 {
    match command {
        Command::Run => run(rt),
        Command::Walk => walk(rt),
        Command::Both => both(rt),
        Command::Check => check(rt),
        Command::Compile => compile(rt),
        Command::Numbers => numbers(rt),
        _ => all(rt),
    }
}

fn run(rt: &HostRuntime) -> u8 {
    answer(
        rt,
        b"\
loopgarret run [--budget N] [--steps] SHEET

Compiles the sheet and runs it. What it writes goes to standard output. Each `read` takes a line of standard input; at a
terminal the prompt appears before each entry, and what the sheet writes appears as it is written.
A refusal is said on standard error, with its number; what was written by then stays.
  --budget N   end with 16 after N steps, 0 to 4294967295 (10000000 if not given)
  --steps      say on standard error how many lines were taken and how many steps completed
Status: 0 done, 1 the sheet is refused, 2 the run is refused, 3 bad usage or an unreadable file
",
    )
}

fn walk(rt: &HostRuntime) -> u8 {
    answer(
        rt,
        b"\
loopgarret walk [--budget N] [--steps] SHEET

Works the sheet out on its tree, without its code, and is otherwise as `loopgarret run`. It is proved that the two end
alike. A sheet with a procedure is refused with 25.
",
    )
}

fn both(rt: &HostRuntime) -> u8 {
    answer(
        rt,
        b"\
loopgarret both [--budget N] [--steps] SHEET

Runs the sheet, as `loopgarret run` does, then walks it with the same entries, and says on standard error that the two
agree: in number, lines taken, steps and every byte written.
",
    )
}

fn check(rt: &HostRuntime) -> u8 {
    answer(
        rt,
        b"\
loopgarret check SHEET

Says whether the sheet is accepted, and runs nothing. A refusal is said on standard error, with its number; the status is
then 1.
",
    )
}

fn compile(rt: &HostRuntime) -> u8 {
    answer(
        rt,
        b"\
loopgarret compile SHEET

Prints the sheet's instructions, a line each: index, kind, level and operand.
",
    )
}

fn numbers(rt: &HostRuntime) -> u8 {
    answer(
        rt,
        b"\
loopgarret numbers

Prints what each number means with which a sheet or a run is refused.
",
    )
}

// The public entries for C and Rust, as include/loopgarret.h declares them: the static library.
#![tactic(auto)]

ghost use Rattle.std.specs.Prelude.{◌≡◌};
ghost use Rattle.listing.specs.Outcome.{list_outcome};
ghost use Rattle.listing.specs.Answers.{listed_of};
ghost use Rattle.machine.specs.Outcome.{run_outcome};
ghost use Rattle.machine.specs.Runs.{outcome_of};
ghost use Rattle.outcomes.specs.Outcomes.{compile_outcome, walk_outcome};
ghost use Rattle.engine.specs.Entries.{compiled_of};
ghost use Rattle.engine.specs.Walking.{walked_of};

use engine::{Compiled, compile, walk};
use listing::Listed;
use machine::Ended;

#[unsafe(no_mangle)]
pub extern "C" fn loopgarret_compile(
    text: &[u8],
    kinds: &mut [i8],
    levels: &mut [u16],
    operands: &mut [i64],
    tree: &mut [u32],
    table: &mut [u32],
    draft: &mut [u32],
) -> Compiled
    ensures { compiled_of result kinds.new levels.new operands.new tree.new table.new draft.new ≡ compile_outcome text.now (record { kinds = kinds.old; levels = levels.old; operands = operands.old }) (record { tree = tree.old; table = table.old; draft = draft.old }) }
{
    compile(text, kinds, levels, operands, tree, table, draft)
}

#[unsafe(no_mangle)]
pub extern "C" fn loopgarret_run(
    kinds: &[i8],
    levels: &[u16],
    operands: &[i64],
    input: &[u8],
    budget: u32,
    out: &mut [u8],
    cells: &mut [i64],
) -> Ended
    ensures { outcome_of result out.new cells.new ≡ run_outcome (record { kinds = kinds.now; levels = levels.now; operands = operands.now }) input.now budget out.old cells.old }
{
    machine::run(kinds, levels, operands, input, budget, out, cells)
}

#[unsafe(no_mangle)]
pub extern "C" fn loopgarret_walk(
    text: &[u8],
    input: &[u8],
    budget: u32,
    out: &mut [u8],
    vars: &mut [i64],
    tree: &mut [u32],
    table: &mut [u32],
    draft: &mut [u32],
) -> Ended
    ensures { walked_of result out.new vars.new tree.new table.new draft.new ≡ walk_outcome text.now input.now budget out.old vars.old (record { tree = tree.old; table = table.old; draft = draft.old }) }
{
    walk(text, input, budget, out, vars, tree, table, draft)
}

#[unsafe(no_mangle)]
pub extern "C" fn loopgarret_list(
    kinds: &[i8],
    levels: &[u16],
    operands: &[i64],
    out: &mut [u8],
) -> Listed
    ensures { listed_of result out.new ≡ list_outcome (record { kinds = kinds.now; levels = levels.now; operands = operands.now }) out.old }
{
    listing::list(kinds, levels, operands, out)
}

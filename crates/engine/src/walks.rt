// The public entry walk: a text that compile accepts, worked out on its tree.
ghost use Rattle.std.specs.Prelude.{◌≡◌, ◌≤◌, pos, length, replicate};
ghost use Rattle.numbers.specs.Limits.{max_variables};
ghost use Rattle.numbers.specs.Lent.{onto};
ghost use Rattle.numbers.specs.Refusals.{number_of};
ghost use Rattle.outcomes.specs.Compile.{walk};
ghost use Rattle.outcomes.specs.Outcomes.{walk_outcome};
ghost use Rattle.engine.specs.Walking.{refused_with, ended_of, ended_with, Leaves, walked_of};

use crate::drafts::draft_text;
use crate::entries::DONE;
use crate::rooms::wipe;
use machine::Ended;
use numbers::limits::{DRAFT_PLACES, MAX_ROWS, TABLE_PLACES, TREE_PLACES};
use numbers::refusal::Refusal;
use numbers::room::clear;
use walk::progress::Progress;
use walk::{holds_procedure, walk_tree};

// No step was made.
fn refused(why: Refusal) -> Ended
    ensures { result ≡ refused_with (number_of why) }
{
    Ended {
        number: why.number(),
        out_len: 0,
        lines: 0,
        steps: 0,
    }
}

// How a walk ended, and what was counted up to there.
fn ended(progress: Progress, end: Result<(), Refusal>, budget: u32) -> Ended
    requires { progress.clock.left ≤ budget }
    ensures { result ≡ ended_of progress end budget }
{
    let number = match end {
        Ok(()) => DONE,
        Err(why) => why.number(),
    };
    Ended {
        number,
        out_len: progress.written,
        lines: progress.lines,
        steps: budget - progress.clock.left,
    }
}

// The walk of a text, or the refusal for which none was made; the variables are zero before it.
fn walk_text(
    text: &[u8],
    input: &[u8],
    budget: u32,
    out: &mut [u8],
    vars: &mut [i64],
    tree: &mut [u32; TREE_PLACES],
    table: &mut [u32; TABLE_PLACES],
    draft: &mut [u32; DRAFT_PLACES],
) -> Result<Ended, Refusal>
    requires { vars.old ≡ onto vars.old (replicate max_variables (pos 0)) }
    ensures { Leaves (walk text.now input.now budget (length out.old)) budget vars.old out.old vars.new out.new (ended_with result) }
{
    let translated = draft_text(text, tree, table, draft)?;
    if holds_procedure(tree) {
        return Err(Refusal::ProcedureInTree);
    }
    let (progress, end) = walk_tree(text, tree, table, translated.rows, input, budget, vars, out);
    Ok(ended(progress, end, budget))
}

// Works a text out on its tree.
pub fn walk(
    text: &[u8],
    input: &[u8],
    budget: u32,
    out: &mut [u8],
    vars: &mut [i64],
    tree: &mut [u32],
    table: &mut [u32],
    draft: &mut [u32],
) -> Ended
    ensures { walked_of result out.new vars.new tree.new table.new draft.new ≡ walk_outcome text.now input.now budget out.old vars.old (record { tree = tree.old; table = table.old; draft = draft.old }) }
{
    if vars.len() < MAX_ROWS {
        return refused(Refusal::RoomTooSmall);
    }
    let Some(tree) = tree.first_chunk_mut::<TREE_PLACES>() else {
        return refused(Refusal::RoomTooSmall);
    };
    let Some(table) = table.first_chunk_mut::<TABLE_PLACES>() else {
        return refused(Refusal::RoomTooSmall);
    };
    let Some(draft) = draft.first_chunk_mut::<DRAFT_PLACES>() else {
        return refused(Refusal::RoomTooSmall);
    };
    clear(&mut vars[..MAX_ROWS], 0);
    let walked = walk_text(text, input, budget, out, vars, tree, table, draft);
    let ended = walked.unwrap_or_else(refused);
    wipe(tree, table, draft);
    ended
}

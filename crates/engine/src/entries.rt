// The public entry compile.
ghost use Rattle.std.specs.Prelude.{◌≡◌, ◌&&◌, leb};
ghost use Rattle.numbers.specs.Limits.{max_code};
ghost use Rattle.outcomes.specs.Outcomes.{compile_outcome};
ghost use Rattle.engine.specs.Entries.{answer_of, compiled_of};

use crate::drafts::draft_text;
use crate::places::hand_out;
use crate::rooms::wipe;
use numbers::limits::{DRAFT_PLACES, MAX_CODE, TABLE_PLACES, TREE_PLACES};
use numbers::refusal::Refusal;
use translator::Translated;

// "done"
pub const DONE: u8 = 0;

// Number and code length, 0 if refused.
#[repr(C)]
#[derive(Clone, Copy)]
pub struct Compiled {
    pub number: u8,
    pub length: usize,
}

// What is answered to a text.
fn answer(drafted: Result<Translated, Refusal>) -> Compiled
    ensures { result ≡ answer_of drafted }
{
    match drafted {
        Ok(translated) => Compiled {
            number: DONE,
            length: translated.code,
        },
        Err(why) => Compiled {
            number: why.number(),
            length: 0,
        },
    }
}

// Whether three lists have room for all code places.
fn holds_code(kinds: usize, levels: usize, operands: usize) -> bool
    ensures { result ≡ (leb max_code kinds && leb max_code levels && leb max_code operands) }
{
    MAX_CODE <= kinds && MAX_CODE <= levels && MAX_CODE <= operands
}

// Compiles a text into the lent code places.
#[tactic(auto, using(crate::proofs::Compiling::tree_refused))]
pub fn compile(
    text: &[u8],
    kinds: &mut [i8],
    levels: &mut [u16],
    operands: &mut [i64],
    tree: &mut [u32],
    table: &mut [u32],
    draft: &mut [u32],
) -> Compiled
    ensures { compiled_of result kinds.new levels.new operands.new tree.new table.new draft.new ≡ compile_outcome text.now (record { kinds = kinds.old; levels = levels.old; operands = operands.old }) (record { tree = tree.old; table = table.old; draft = draft.old }) }
{
    if !holds_code(kinds.len(), levels.len(), operands.len()) {
        return answer(Err(Refusal::RoomTooSmall));
    }
    let Some(tree) = tree.first_chunk_mut::<TREE_PLACES>() else {
        return answer(Err(Refusal::RoomTooSmall));
    };
    let Some(table) = table.first_chunk_mut::<TABLE_PLACES>() else {
        return answer(Err(Refusal::RoomTooSmall));
    };
    let Some(draft) = draft.first_chunk_mut::<DRAFT_PLACES>() else {
        return answer(Err(Refusal::RoomTooSmall));
    };
    let compiled = answer(draft_text(text, tree, table, draft));
    hand_out(draft, compiled.length, kinds, levels, operands);
    wipe(tree, table, draft);
    compiled
}

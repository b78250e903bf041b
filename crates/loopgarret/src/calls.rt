// The engine's entries, each over room of its own.
use engine::Compiled;
use machine::Ended;
use numbers::limits::{CELLS, DRAFT_PLACES, MAX_ROWS, TABLE_PLACES, TREE_PLACES};
use pcode::Code;

// Compiles a sheet.
pub fn compiled(
    text: &[u8],
    kinds: &mut [i8],
    levels: &mut [u16],
    operands: &mut [i64],
) -> Compiled {
    let mut tree = [0; TREE_PLACES];
    let mut table = [0; TABLE_PLACES];
    let mut draft = [0; DRAFT_PLACES];
    engine::compile(
        text, kinds, levels, operands, &mut tree, &mut table, &mut draft,
    )
}

// Runs the code of a sheet.
pub fn run_once(code: Code<'_>, entries: &[u8], budget: u32, out: &mut [u8]) -> Ended {
    let mut cells = [0; CELLS];
    machine::run(
        code.kinds,
        code.levels,
        code.operands,
        entries,
        budget,
        out,
        &mut cells,
    )
}

// Works the sheet out on its tree.
pub fn walk_once(text: &[u8], entries: &[u8], budget: u32, out: &mut [u8]) -> Ended {
    let mut vars = [0; MAX_ROWS];
    let mut tree = [0; TREE_PLACES];
    let mut table = [0; TABLE_PLACES];
    let mut draft = [0; DRAFT_PLACES];
    engine::walk(
        text, entries, budget, out, &mut vars, &mut tree, &mut table, &mut draft,
    )
}

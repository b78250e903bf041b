// What the entries leave in the working room: zeros.
ghost use Rattle.std.specs.Prelude.{◌≡◌, replicate};
ghost use Rattle.numbers.specs.Limits.{tree_places, table_places, draft_places};

use numbers::limits::{DRAFT_PLACES, TABLE_PLACES, TREE_PLACES};
use numbers::room::clear;

// Working room is zero on return.
pub fn wipe(
    tree: &mut [u32; TREE_PLACES],
    table: &mut [u32; TABLE_PLACES],
    draft: &mut [u32; DRAFT_PLACES],
)
    ensures tree_after { tree.new ≡ replicate tree_places 0 }
    ensures table_after { table.new ≡ replicate table_places 0 }
    ensures draft_after { draft.new ≡ replicate draft_places 0 }
{
    clear(tree, 0);
    clear(table, 0);
    clear(draft, 0);
}

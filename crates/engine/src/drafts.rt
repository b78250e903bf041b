// A text, read and translated in the working room: what compile and walk share.
ghost use Rattle.engine.specs.Entries.{Drafting};

use numbers::limits::{DRAFT_PLACES, TABLE_PLACES, TREE_PLACES};
use numbers::refusal::Refusal;
use translator::{Translated, translate};

// Reads a text and translates its tree, or passes on the first refusal.
pub fn draft_text(
    text: &[u8],
    tree: &mut [u32; TREE_PLACES],
    table: &mut [u32; TABLE_PLACES],
    draft: &mut [u32; DRAFT_PLACES],
) -> Result<Translated, Refusal>
    ensures { Drafting text.now tree.new table.new draft.new result }
{
    parser::parse(text, tree)?;
    translate(text, tree, table, draft)
}

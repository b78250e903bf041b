// The code that was drafted, handed out to the lent code places.
ghost use Rattle.std.specs.Prelude.{◌≡◌, List, ◌≤◌, length};
ghost use Rattle.numbers.specs.Limits.{max_code};
ghost use Rattle.numbers.specs.Lent.{onto, filled};
ghost use Rattle.pcode.specs.Code.{Instr, nil, code_for};
ghost use Rattle.engine.specs.Handing.{Drafts};

use numbers::limits::MAX_CODE;
use numbers::room::clear;
use pcode::Kind;

// The numbers of a drafted instruction.
const SHARE: usize = 4;

// What a number of the draft is below.
const HALF: u64 = 1 << 32;

// All code places: the n drafted instructions, each operand from its two halves, and NIL 0 0 beyond them.
pub fn hand_out(draft: &[u32], n: usize, kinds: &mut [i8], levels: &mut [u16], operands: &mut [i64])
    requires drafts { (c : List Instr) × Drafts draft.now n c }
    requires n_le_max_code { n ≤ max_code }
    requires max_code_in_bounds { (max_code ≤ length kinds.old) × ((max_code ≤ length levels.old) × (max_code ≤ length operands.old)) }
    ensures kinds_after { (c : List Instr) → Drafts draft.now n c → kinds.new ≡ onto kinds.old (code_for (filled max_code nil c)).kinds }
    ensures levels_after { (c : List Instr) → Drafts draft.now n c → levels.new ≡ onto levels.old (code_for (filled max_code nil c)).levels }
    ensures operands_after { (c : List Instr) → Drafts draft.now n c → operands.new ≡ onto operands.old (code_for (filled max_code nil c)).operands }
{
    for k in 0..n {
        let i = SHARE * k;
        kinds[k] = draft[i] as i8;
        levels[k] = draft[i + 1] as u16;
        operands[k] = (draft[i + 2] as u64 + HALF * draft[i + 3] as u64) as i64;
    }
    clear(&mut kinds[n..MAX_CODE], Kind::Nil as i8);
    clear(&mut levels[n..MAX_CODE], 0);
    clear(&mut operands[n..MAX_CODE], 0);
}

// Emission: the code of expressions and statements, written into the draft, which holds four numbers for each
// instruction: its kind, its level, and the low and the high half of its operand.
#![tactic(auto)]

pub mod expressions;
pub mod statements;

ghost use Rattle.std.specs.Prelude.{◌≡◌, ◌+◌, ◌*◌, ◌≤◌, ◌<◌, pos, length, set};
ghost use Rattle.numbers.specs.Limits.{max_code, draft_places, draft_share};
ghost use Rattle.tree.specs.Layout.{half};
ghost use Rattle.pcode.specs.Coded.{op_of, oper};
ghost use Rattle.symbols.specs.Symbols.{Row};
ghost use Rattle.emission.specs.Pieces.{emit, emit_oper};
ghost use Rattle.emission.specs.Statements.{Env as Here, reach};
ghost use Rattle.emission.specs.Draft.{op_no, whole, Emits};

use numbers::limits::MAX_CODE;
use numbers::refusal::Refusal;
use pcode::{Kind, Operator};

// What holds while a body is translated: the text and its tree, the table of symbol rows and how many there are, and
// the body's scope and level.
#[derive(Clone, Copy)]
pub struct Env<'a> {
    pub text: &'a [u8],
    pub tree: &'a [u32],
    pub table: &'a [u32],
    pub used: usize,
    pub scope: u32,
    pub level: u32,
}

// What stands in the draft for NIL, whose own number is below 0.
const NIL: u32 = 11;

// A kind's number in the draft.
fn drafted(kind: Kind) -> u32
    ensures { result ≡ op_no (op_of kind) }
{
    match kind {
        Kind::Nil => NIL,
        kind => kind as u32,
    }
}

// One instruction more, with an operand by its halves.
pub fn emit_wide(
    draft: &mut [u32],
    n: usize,
    kind: Kind,
    level: u32,
    low: u32,
    high: u32,
) -> Result<usize, Refusal>
    requires { draft_places ≤ length draft.old }
    ensures { Emits (emit (op_of kind) level (pos (whole low high)) n) n draft.old draft.new result }
{
    if n >= MAX_CODE {
        return Err(Refusal::TooManyInstructions);
    }
    draft[4 * n..4 * n + 4].copy_from_slice(&[drafted(kind), level, low, high]);
    Ok(n + 1)
}

// One instruction more.
pub fn emit(
    draft: &mut [u32],
    n: usize,
    kind: Kind,
    level: u32,
    operand: u32,
) -> Result<usize, Refusal>
    requires { draft_places ≤ length draft.old }
    ensures { Emits (emit (op_of kind) level (pos operand) n) n draft.old draft.new result }
{
    emit_wide(draft, n, kind, level, operand, 0)
}

// An operator.
pub fn emit_oper(draft: &mut [u32], n: usize, op: Operator) -> Result<usize, Refusal>
    requires { draft_places ≤ length draft.old }
    ensures { Emits (emit_oper (oper op) n) n draft.old draft.new result }
{
    emit(draft, n, Kind::Opr, 0, op as u32)
}

// Points the jump at p to a place.
pub fn fix(draft: &mut [u32], p: usize, target: usize)
    requires draft_places_in_bounds { draft_places ≤ length draft.old }
    requires p_lt_max_code { (p < max_code) × (target < half) }
    ensures { draft.new ≡ set draft.old (draft_share * p + 2) target }
{
    draft[4 * p + 2] = target as u32;
}

// An instruction that reaches from a level to a row's.
pub fn reach(
    draft: &mut [u32],
    n: usize,
    kind: Kind,
    level: u32,
    to: u32,
    low: u32,
    high: u32,
) -> Result<usize, Refusal>
    requires { draft_places ≤ length draft.old }
    ensures { (ρ : Here) (w : Row) → ρ.level ≡ level → w.level ≡ to → Emits (reach (op_of kind) ρ w (whole low high) n) n draft.old draft.new result }
{
    let distance = level.checked_sub(to).ok_or(Refusal::LevelAbove)?;
    emit_wide(draft, n, kind, distance, low, high)
}

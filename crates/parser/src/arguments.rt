// Lists of expressions, in a call or a `write`.
ghost use Rattle.std.specs.Prelude.{◌+◌, ◌≤◌};
ghost use Rattle.tree.specs.Kinds.{no_of};
ghost use Rattle.parser.specs.Answer.{node_of};
ghost use Rattle.parser.specs.Arguments.{Argues};
ghost use Rattle.parser.specs.Meets.{Room};

use crate::expressions::parse_exp;
use crate::lists::end_list;
use crate::see::see;
use lexer::{Cursor, Token};
use numbers::refusal::Refusal;
use tree::Kind;

// exp {`,` exp} `)`: members of the node at `used`, which has `before` of them up to `from` already.
pub fn parse_exps(
    text: &[u8],
    tree: &mut [u32],
    used: usize,
    kind: Kind,
    before: usize,
    from: usize,
    depth: usize,
    cur: Cursor,
) -> Result<(usize, Cursor), Refusal>
    requires room { Room text.now tree.old from 8 cur }
    requires used_bound { (used + 4 ≤ from) × (before ≤ from) }
    ensures { Argues text.now depth used (no_of kind) before from tree.old tree.new cur (node_of result) }
{
    let mut end = from;
    let mut count = before;
    let mut c = cur;
    loop {
        let (e, d) = parse_exp(text, tree, end, depth, c)?;
        end = e;
        count += 1;
        let f = see(text, d)?;
        let Token::Comma = f.token else {
            return end_list(text, tree, used, kind, Token::ParR, count, end, f);
        };
        c = f.take();
    }
}

// Lists with commas, up to the mark after them. `used` is where the node of the list goes, of the kind `kind`.
ghost use Rattle.std.specs.Prelude.{◌≡◌, ◌+◌, ◌*◌, ◌≤◌, length};
ghost use Rattle.numbers.specs.Limits.{tree_places};
ghost use Rattle.lexer.specs.Marks.{Mark};
ghost use Rattle.lexer.specs.Spelling.{token_of};
ghost use Rattle.lexer.specs.Stands.{left};
ghost use Rattle.tree.specs.Kinds.{no_of};
ghost use Rattle.tree.specs.Layout.{NodeKind, node_no, literal, branch};
ghost use Rattle.tree.specs.Nodes.{name_node, list_nodes};
ghost use Rattle.grammar.specs.Reader.{want_name, want_number};
ghost use Rattle.parser.specs.Parts.{only};
ghost use Rattle.parser.specs.Answer.{node_of};
ghost use Rattle.parser.specs.Meets.{Room, Reads};
ghost use Rattle.parser.specs.Lists.{Ends, closed};

use crate::nodes::seal;
use crate::see::{see, want};
use lexer::{Cursor, Token};
use numbers::refusal::Refusal;
use tree::Kind;

// A name that has to be there. It is put where it is called.
#[inline]
pub fn parse_id(
    text: &[u8],
    tree: &mut [u32],
    used: usize,
    cur: Cursor,
) -> Result<(usize, Cursor), Refusal>
    requires { Room text.now tree.old used 0 cur }
    ensures { Reads (λ n. only (name_node n)) text.now tree.old used tree.new (λ n. want_name text.now) 0 8 0 cur (node_of result) }
{
    let c = see(text, cur)?;
    let Token::Identifier(at, n) = c.token else {
        return Err(Refusal::TokenMissing);
    };
    Ok((tree::push_name(tree, used, 0, at, n), c.take()))
}

// A literal that has to be there.
pub fn parse_integer(
    text: &[u8],
    tree: &mut [u32],
    used: usize,
    cur: Cursor,
) -> Result<(usize, Cursor), Refusal>
    requires { Room text.now tree.old used 0 cur }
    ensures { Reads (λ v. only (literal 0 v)) text.now tree.old used tree.new (λ n. want_number text.now) 0 8 0 cur (node_of result) }
{
    let c = see(text, cur)?;
    let Token::Integer(v) = c.token else {
        return Err(Refusal::TokenMissing);
    };
    Ok((tree::push_number(tree, used, 0, v as i64), c.take()))
}

// The mark after a list; then the list's node is whole.
pub fn end_list(
    text: &[u8],
    tree: &mut [u32],
    used: usize,
    kind: Kind,
    close: Token,
    count: usize,
    end: usize,
    cur: Cursor,
) -> Result<(usize, Cursor), Refusal>
    requires used_bound { (used + 4 ≤ end) × (end ≤ length tree.old) }
    requires count_le_end { (count ≤ end) × (length tree.old ≤ tree_places) }
    ensures { (m : Mark) → close ≡ token_of m → Ends text.now m used (no_of kind) count end tree.old tree.new cur (node_of result) }
{
    let c = want(text, cur, close)?;
    seal(tree, used, kind, 0, count, end);
    Ok((end, c))
}

// name {`,` name} and the mark `close`
pub fn parse_ids(
    text: &[u8],
    tree: &mut [u32],
    used: usize,
    kind: Kind,
    close: Token,
    cur: Cursor,
) -> Result<(usize, Cursor), Refusal>
    requires { Room text.now tree.old used 4 cur }
    ensures { (k : NodeKind) → no_of kind ≡ node_no k → (m : Mark) → close ≡ token_of m → Reads (λ ns. only (branch k 0 (list_nodes name_node ns))) text.now tree.old used tree.new (closed text.now m (want_name text.now)) (8 * left cur + 1) 8 0 cur (node_of result) }
{
    let mut end = used + tree::HEADER;
    let mut count = 0;
    let mut c = cur;
    loop {
        let (e, d) = parse_id(text, tree, end, c)?;
        end = e;
        count += 1;
        let f = see(text, d)?;
        let Token::Comma = f.token else {
            return end_list(text, tree, used, kind, close, count, end, f);
        };
        c = f.take();
    }
}

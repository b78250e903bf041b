// Declarations: constants, variables, arguments.
ghost use Rattle.std.specs.Prelude.{◌+◌, ◌*◌};
ghost use Rattle.lexer.specs.Marks.{semicolon_sign};
ghost use Rattle.lexer.specs.Stands.{left};
ghost use Rattle.tree.specs.Nodes.{const_node, consts_node, names_node};
ghost use Rattle.grammar.specs.Grammar.{const_def, const_part, var_part, arg_part};
ghost use Rattle.parser.specs.Answer.{node_of};
ghost use Rattle.parser.specs.Parts.{only};
ghost use Rattle.parser.specs.Lists.{closed};
ghost use Rattle.parser.specs.Blocks.{decls, decls_nodes};
ghost use Rattle.parser.specs.Meets.{Room, Reads};

use crate::lists::{end_list, parse_id, parse_ids, parse_integer};
use crate::nodes::seal;
use crate::see::{see, want};
use lexer::{Cursor, Token};
use numbers::refusal::Refusal;
use tree::Kind;

// name `:=` number
pub fn parse_const(
    text: &[u8],
    tree: &mut [u32],
    used: usize,
    cur: Cursor,
) -> Result<(usize, Cursor), Refusal>
    requires { Room text.now tree.old used 4 cur }
    ensures { Reads (λ c. only (const_node c)) text.now tree.old used tree.new (λ n. const_def text.now) 0 8 0 cur (node_of result) }
{
    let (named, c) = parse_id(text, tree, used + tree::HEADER, cur)?;
    let d = want(text, c, Token::EqSign)?;
    let (end, e) = parse_integer(text, tree, named, d)?;
    seal(tree, used, Kind::Constant, 0, 2, end);
    Ok((end, e))
}

// constant {`,` constant} `;`
pub fn parse_consts(
    text: &[u8],
    tree: &mut [u32],
    used: usize,
    cur: Cursor,
) -> Result<(usize, Cursor), Refusal>
    requires { Room text.now tree.old used 8 cur }
    ensures { Reads (λ cs. only (consts_node cs)) text.now tree.old used tree.new (closed text.now semicolon_sign (const_def text.now)) (8 * left cur + 1) 8 0 cur (node_of result) }
{
    let mut end = used + tree::HEADER;
    let mut count = 0;
    let mut c = cur;
    loop {
        let (e, d) = parse_const(text, tree, end, c)?;
        end = e;
        count += 1;
        let f = see(text, d)?;
        let Token::Comma = f.token else {
            return end_list(
                text,
                tree,
                used,
                Kind::List,
                Token::Semicolon,
                count,
                end,
                f,
            );
        };
        c = f.take();
    }
}

// [`const` constants `;`]
pub fn parse_const_decl(
    text: &[u8],
    tree: &mut [u32],
    used: usize,
    cur: Cursor,
) -> Result<(usize, Cursor), Refusal>
    requires { Room text.now tree.old used 4 cur }
    ensures { Reads (λ cs. only (consts_node cs)) text.now tree.old used tree.new (λ n. const_part text.now n) (8 * left cur + 1) 0 4 cur (node_of result) }
{
    let c = see(text, cur)?;
    match c.token {
        Token::Const => parse_consts(text, tree, used, c.take()),
        _ => Ok((tree::push(tree, used, Kind::List, 0, 0, 0), c)),
    }
}

// [`var` names `;`]
pub fn parse_var_decl(
    text: &[u8],
    tree: &mut [u32],
    used: usize,
    cur: Cursor,
) -> Result<(usize, Cursor), Refusal>
    requires { Room text.now tree.old used 4 cur }
    ensures { Reads (λ ns. only (names_node ns)) text.now tree.old used tree.new (λ n. var_part text.now n) (8 * left cur + 1) 0 4 cur (node_of result) }
{
    let c = see(text, cur)?;
    match c.token {
        Token::Var => parse_ids(text, tree, used, Kind::List, Token::Semicolon, c.take()),
        _ => Ok((tree::push(tree, used, Kind::List, 0, 0, 0), c)),
    }
}

// [names] `)`
pub fn parse_args(
    text: &[u8],
    tree: &mut [u32],
    used: usize,
    cur: Cursor,
) -> Result<(usize, Cursor), Refusal>
    requires { Room text.now tree.old used 4 cur }
    ensures { Reads (λ ns. only (names_node ns)) text.now tree.old used tree.new (λ n. arg_part text.now n) (8 * left cur + 1) 8 0 cur (node_of result) }
{
    let c = see(text, cur)?;
    match c.token {
        Token::ParR => Ok((tree::push(tree, used, Kind::List, 0, 0, 0), c.take())),
        _ => parse_ids(text, tree, used, Kind::List, Token::ParR, c),
    }
}

// The constants and the variables of a block: two nodes.
pub fn parse_decls(
    text: &[u8],
    tree: &mut [u32],
    used: usize,
    cur: Cursor,
) -> Result<(usize, Cursor), Refusal>
    requires { Room text.now tree.old used 8 cur }
    ensures { Reads decls_nodes text.now tree.old used tree.new (λ n. decls text.now n) (8 * left cur + 1) 0 8 cur (node_of result) }
{
    let (end, c) = parse_const_decl(text, tree, used, cur)?;
    parse_var_decl(text, tree, end, c)
}

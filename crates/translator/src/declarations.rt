// Declarations: the rows of constants, variables, and a procedure with its arguments.
ghost use Rattle.std.specs.Prelude.{◌≡◌, List, ◌+◌, ◌≤◌, length};
ghost use Rattle.lexer.specs.Tokens.{Name};
ghost use Rattle.tree.specs.Tree.{Const};
ghost use Rattle.tree.specs.Standing.{NameAt, HasName};
ghost use Rattle.symbols.specs.Symbols.{var_row, const_rows};
ghost use Rattle.symbols.specs.Table.{scope_at, rows_in};
ghost use Rattle.translator.specs.Rows.{Can, Declared, add_name, name_rows, constant_of, variable_of, procedure_of, ConstsAt, HasConsts, NamesAt, HasNames, HeadingAt, HasHeading, Headed};

use crate::Source;
use numbers::limits::LINKS;
use numbers::refusal::Refusal;
use symbols::{Kind, Symbol};
use tree::HEADER;

// Where declarations go: the scope, the level and the next free address.
#[derive(Clone, Copy)]
pub struct Frame {
    pub scope: u32,
    pub level: u32,
    pub address: u32,
}

// The row of the constant at i.
fn constant(tree: &[u32], i: usize, frame: Frame) -> Symbol
    requires { i + 12 ≤ length tree.now }
    ensures { result ≡ constant_of tree.now i frame }
{
    Symbol {
        at: tree[i + 6],
        len: tree[i + 7],
        kind: Kind::Constant,
        low: tree[i + 10],
        high: tree[i + 11],
        level: frame.level,
        address: frame.address,
        size: 0,
        scope: frame.scope,
    }
}

// The row of a variable or an argument, whose name stands at i.
fn variable(tree: &[u32], i: usize, frame: Frame) -> Symbol
    requires { i + 4 ≤ length tree.now }
    ensures { result ≡ variable_of tree.now i frame }
{
    Symbol {
        at: tree[i + 2],
        len: tree[i + 3],
        kind: Kind::Variable,
        low: 0,
        high: 0,
        level: frame.level,
        address: frame.address,
        size: 0,
        scope: frame.scope,
    }
}

// The row of the procedure at i, whose entry is not known yet.
fn procedure(tree: &[u32], i: usize, frame: Frame) -> Symbol
    requires { i + 12 ≤ length tree.now }
    ensures { result ≡ procedure_of tree.now i frame }
{
    Symbol {
        at: tree[i + 6],
        len: tree[i + 7],
        kind: Kind::Procedure,
        low: 0,
        high: 0,
        level: frame.level,
        address: frame.address,
        size: tree[i + 10],
        scope: frame.scope,
    }
}

// The constants of the list at i.
pub fn const_decl(
    source: &Source<'_>,
    i: usize,
    table: &mut [u32],
    mut used: usize,
    frame: Frame,
) -> Result<usize, Refusal>
    requires can { Can source.now.text.now table.old used frame }
    requires has_consts { HasConsts source.now.text.now source.now.tree.now i }
    ensures { (l : List Const) → ConstsAt source.now.text.now source.now.tree.now i l → Declared (const_rows (rows_in source.now.text.now table.old used) frame.level frame.address (scope_at source.now.text.now table.old frame.scope) l) source.now.text.now table.old used table.new result }
{
    let mut j = i + HEADER;
    for _ in 0..source.tree[i + 2] {
        used = symbols::enter(source.text, table, used, constant(source.tree, j, frame))?;
        j = tree::after(source.tree, j);
    }
    Ok(used)
}

// The variable or argument at i. Where it is checked, its name must be new in its scope.
fn name_decl(
    source: &Source<'_>,
    i: usize,
    table: &mut [u32],
    used: usize,
    frame: Frame,
    checked: bool,
) -> Result<usize, Refusal>
    requires can { Can source.now.text.now table.old used frame }
    requires has_name { HasName source.now.text.now source.now.tree.now i }
    ensures { (m : Name) → NameAt source.now.text.now source.now.tree.now i m → Declared (add_name checked (rows_in source.now.text.now table.old used) (var_row m frame.level frame.address (scope_at source.now.text.now table.old frame.scope))) source.now.text.now table.old used table.new result }
{
    let y = variable(source.tree, i, frame);
    if checked {
        symbols::enter(source.text, table, used, y)
    } else {
        symbols::add(source.text, table, used, y)
    }
}

// The variables of the list at i, which are checked, or the arguments, which are not; one address each.
pub fn names_decl(
    source: &Source<'_>,
    i: usize,
    table: &mut [u32],
    mut used: usize,
    frame: Frame,
    checked: bool,
) -> Result<usize, Refusal>
    requires can { Can source.now.text.now table.old used frame }
    requires has_names { HasNames source.now.text.now source.now.tree.now i }
    ensures { (l : List Name) → NamesAt source.now.text.now source.now.tree.now i l → Declared (name_rows checked (rows_in source.now.text.now table.old used) frame.level frame.address (scope_at source.now.text.now table.old frame.scope) l) source.now.text.now table.old used table.new result }
{
    let mut address = frame.address;
    let mut j = i + HEADER;
    for _ in 0..source.tree[i + 2] {
        used = name_decl(source, j, table, used, Frame { address, ..frame }, checked)?;
        address += 1;
        j = tree::after(source.tree, j);
    }
    Ok(used)
}

// The procedure at i and its arguments.
pub fn heading(
    source: &Source<'_>,
    i: usize,
    table: &mut [u32],
    used: usize,
    frame: Frame,
) -> Result<usize, Refusal>
    requires can { Can source.now.text.now table.old used frame }
    requires level_le_used { frame.level ≤ used }
    requires has_heading { HasHeading source.now.text.now source.now.tree.now i }
    ensures { (m : Name) (ar : List Name) → HeadingAt source.now.text.now source.now.tree.now i m ar → Headed m ar source.now.text.now table.old used frame table.new result }
{
    let y = procedure(source.tree, i, frame);
    let u = symbols::enter(source.text, table, used, y)?;
    let inner = Frame {
        scope: u as u32,
        level: frame.level + 1,
        address: LINKS as u32,
    };
    names_decl(source, i + 2 * HEADER, table, u, inner, false)
}

// What is seen from a scope, worked out once for each body: afterwards a row's scope is seen or not by one number.
ghost use Rattle.std.specs.Prelude.{◌≡◌, ◌&&◌, List, ℕ, ◌+◌, ◌*◌, ◌≤◌, ◌<◌, length};
ghost use Rattle.symbols.specs.Table.{scope as scope_of, first as first_of, rows_in, is_open, Linked, Sound, Seen, Became};
ghost use Rattle.symbols.specs.Steps.{Cleared, Marked, Opened, Unopened, marked};

use super::{FIRST, ROW, SCOPE, SIGHT};

// What a row's sight says: nothing; that its name is in the scope list (kept at the first row of that name); or that
// its scope is seen.
#[derive(Clone, Copy, PartialEq, Eq)]
enum Sight {
    Dark = 0,
    Named,
    Open,
}

// Whether a scope is seen. The main program's is, everywhere.
pub fn is_open(table: &[u32], scope: u32) -> bool
    requires { 12 * scope ≤ length table.now }
    ensures { result ≡ is_open table.now scope }
{
    scope == 0 || table[ROW * (scope as usize - 1) + SIGHT] == Sight::Open as u32
}

// Nothing is seen.
fn clear(table: &mut [u32], used: usize)
    requires { 12 * used ≤ length table.old }
    ensures { Cleared table.old used table.new }
{
    for k in 0..used {
        table[ROW * k + SIGHT] = Sight::Dark as u32;
    }
}

// The names of the scope list, each at its first row.
fn mark(table: &mut [u32], scope: u32)
    requires { Linked table.old scope }
    ensures { Marked table.old scope table.new }
{
    let mut p = scope as usize;
    while p != 0 {
        let first = table[ROW * (p - 1) + FIRST] as usize;
        table[ROW * first + SIGHT] = Sight::Named as u32;
        p = table[ROW * (p - 1) + SCOPE] as usize;
    }
}

// Whether the name of row k is in the scope list, and its scope is seen.
fn opens(table: &[u32], k: usize) -> bool
    requires { Linked table.now (k + 1) }
    ensures { result ≡ (marked table.now (first_of table.now k) && is_open table.now (scope_of table.now k)) }
{
    let first = table[ROW * k + FIRST] as usize;
    table[ROW * first + SIGHT] != Sight::Dark as u32 && is_open(table, table[ROW * k + SCOPE])
}

// The rows whose scope, with their own name, is seen.
fn open_rows(table: &mut [u32], used: usize)
    requires linked { Linked table.old used }
    requires unopened { Unopened table.old used }
    ensures { Opened table.old used table.new }
{
    for k in 0..used {
        if opens(table, k) {
            table[ROW * k + SIGHT] = Sight::Open as u32;
        }
    }
}

// Looks from a scope: sets out for every row whether it is seen from there.
pub fn see(table: &mut [u32], used: usize, scope: u32)
    requires linked { Linked table.old used }
    requires scope_le_used { scope ≤ used }
    ensures seen { Seen table.new used scope }
    ensures rows_stay { (s : List ℕ) → Sound s table.old used → Became 11 s table.old used (rows_in s table.old used) table.new }
{
    clear(table, used);
    mark(table, scope);
    open_rows(table, used);
}

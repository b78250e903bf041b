// Writing the tree beyond its leaves.
ghost use Rattle.std.specs.Prelude.{◌≡◌, ◌+◌, ◌≤◌, length};
ghost use Rattle.numbers.specs.Limits.{tree_places};
ghost use Rattle.numbers.specs.Answers.{arith_of, compare_of};
ghost use Rattle.tree.specs.Kinds.{no_of};
ghost use Rattle.tree.specs.Nodes.{arith_no, compare_no};
ghost use Rattle.parser.specs.Written.{Seals};

use numbers::arithmetic::{Arith, Compare};
use tree::Kind;

// How an operand joins what stands before it, where nothing does.
pub const FIRST: u32 = 0;

// How an operand joins what stands before it.
pub fn joined(op: Arith) -> u32
    ensures { result ≡ arith_no (arith_of op) }
{
    match op {
        Arith::Add => 1,
        Arith::Sub => 2,
        Arith::Mul => 3,
        Arith::Div => 4,
    }
}

// The number of a comparison.
pub fn compared(op: Compare) -> u32
    ensures { result ≡ compare_no (compare_of op) }
{
    match op {
        Compare::Equal => 1,
        Compare::Unequal => 2,
        Compare::Less => 3,
        Compare::AtLeast => 4,
        Compare::Greater => 5,
        Compare::AtMost => 6,
    }
}

// The first four numbers of a node, once its members stand after them, up to `end`.
pub fn seal(tree: &mut [u32], i: usize, kind: Kind, op: u32, count: usize, end: usize)
    requires i_bound { (i + 4 ≤ end) × (end ≤ length tree.old) }
    requires count_le_end { (count ≤ end) × (length tree.old ≤ tree_places) }
    ensures { Seals i (no_of kind) op count end tree.old tree.new }
{
    tree[i] = kind.number();
    tree[i + 1] = op;
    tree[i + 2] = count as u32;
    tree[i + 3] = (end - (i + tree::HEADER)) as u32;
}

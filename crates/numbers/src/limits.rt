// The limits that several crates hold to.

// Bytes of a source.
pub const MAX_SOURCE: usize = 32768;

// Constructs that are open at once.
pub const MAX_OPEN: usize = 64;

// Instructions of a code list.
pub const MAX_CODE: usize = 4096;

// Cells of the machine; also the greatest top.
pub const CELLS: usize = 4096;

// Cells of a frame before its variables.
pub const LINKS: usize = 3;

// Symbol rows; also the variables that a walk leaves.
pub const MAX_ROWS: usize = 512;

// Places of the working room: the tree, ..
pub const TREE_PLACES: usize = 98400;

// .. the symbol rows, ..
pub const TABLE_PLACES: usize = 6144;

// .. and the code before it is handed out.
pub const DRAFT_PLACES: usize = 16384;

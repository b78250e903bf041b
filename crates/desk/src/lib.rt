// What the programs say and how they take their words: text on a page, the table of numbers, the listing of a code list,
// the words of the command line, the lines of the entries; and reading a file whole.
#![tactic(auto)]

pub mod entries;
pub mod files;
pub mod listing;
pub mod page;
pub mod table;
pub mod words;

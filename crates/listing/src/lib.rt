// A listing on paper: a code list as text, a line to an instruction, laid out as the Rust's show_pcode_list does.
#![tactic(auto)]

mod line;
mod lists;

pub use lists::{Listed, list};

// The protocol of cases and answers: words one blank apart, bytes in hexadecimal, code lists and lists of values.
#![tactic(auto)]

pub mod print;
pub mod read;

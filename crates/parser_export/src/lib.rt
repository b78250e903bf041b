// The parser for C and Rust, as bench/run-parse links it: 0 where there is a tree, or the number of the refusal.
#![tactic(auto)]

ghost use Rattle.parser_export.specs.Exported.{Exports};

// What a tree comes to on the panel.
const DONE: u8 = 0;

#[unsafe(no_mangle)]
pub extern "C" fn loopgarret_parse(text: &[u8], tree: &mut [u32]) -> u8
    ensures { Exports text.now tree.old tree.new result }
{
    match parser::parse(text, tree) {
        Ok(_) => DONE,
        Err(refusal) => refusal.number(),
    }
}

// A code list as text, a line to an instruction: index, kind, level and operand, laid out as the Rust's show_pcode_list
// does.
ghost use Rattle.std.specs.Prelude.{◌≡◌};
ghost use Rattle.numbers.specs.Bytes.{bytes};
ghost use Rattle.pcode.specs.Coded.{op_of};
ghost use Rattle.desk.specs.Page.{Put, SameRoom};
ghost use Rattle.desk.specs.Listing.{letters, line_text};

use crate::page::Page;
use pcode::{Code, Kind};

// The three letters of a kind.
#[tactic(auto, unfolding(crate::specs::Listing::letters, numbers::specs::Bytes::bytes))]
fn letters(kind: Kind) -> &'static [u8]
    ensures { result.now ≡ bytes (letters (op_of kind)) }
{
    match kind {
        Kind::Nil => b"NIL",
        Kind::Lit => b"LIT",
        Kind::Opr => b"OPR",
        Kind::Lod => b"LOD",
        Kind::Sto => b"STO",
        Kind::Sta => b"STA",
        Kind::Cal => b"CAL",
        Kind::Int => b"INT",
        Kind::Jmp => b"JMP",
        Kind::Jpc => b"JPC",
        Kind::Red => b"RED",
        Kind::Wrt => b"WRT",
    }
}

impl Page<'_> {
    // Puts the line of an instruction, whose kind is lent by its number.
    pub fn put_line(&mut self, index: u64, kind: i8, level: u16, operand: i64)
        ensures { Put (line_text index kind level operand) self.old self.new }
    {
        self.put_right(index);
        self.put(b"| ");
        self.put(letters(Kind::from(kind)));
        self.put(b" ");
        self.put_right(u64::from(level));
        self.put(b"   ");
        self.put_number(operand);
        self.put(b"\n");
    }

    // Puts the lines of a code list, as long as the shortest of its three parts.
    pub fn put_listing(&mut self, code: Code<'_>)
        ensures { SameRoom self.old self.new }
    {
        for i in 0..code.len() {
            self.put_line(i as u64, code.kinds[i], code.levels[i], code.operands[i]);
        }
    }
}

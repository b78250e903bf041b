// The public entry `list`: the lines of a code list, one after the other, as many as fit.
ghost use Rattle.std.specs.Prelude.{◌≡◌};
ghost use Rattle.numbers.specs.Refusals.{number_of};
ghost use Rattle.listing.specs.Outcome.{list_outcome};
ghost use Rattle.listing.specs.Answers.{listed_of};

use crate::line::put_line;
use numbers::limits::MAX_CODE;
use numbers::refusal::Refusal;
use pcode::Code;

// The number of the panel for a listing that is whole.
const DONE: u8 = 0;

// Number, bytes written.
#[repr(C)]
#[derive(Clone, Copy)]
pub struct Listed {
    pub number: u8,
    pub out_len: usize,
}

// A listing that ends before a line that did not fit.
fn cut_short(refusal: Refusal, out_len: usize) -> Listed
    ensures { (result.number ≡ number_of refusal) × (result.out_len ≡ out_len) }
{
    Listed {
        number: refusal.number(),
        out_len,
    }
}

// Writes the listing of a code list, whole lines only.
pub fn list(kinds: &[i8], levels: &[u16], operands: &[i64], out: &mut [u8]) -> Listed
    ensures { listed_of result out.new ≡ list_outcome (record { kinds = kinds.now; levels = levels.now; operands = operands.now }) out.old }
{
    let code = Code {
        kinds,
        levels,
        operands,
    };
    let places = code.len();
    if MAX_CODE < places {
        return Listed {
            number: Refusal::TooManyInstructions.number(),
            out_len: 0,
        };
    }
    let mut at = 0;
    for i in 0..places {
        match put_line(out, at, i as u64, code.get(i)) {
            Ok(next) => at = next,
            Err(refusal) => return cut_short(refusal, at),
        }
    }
    Listed {
        number: DONE,
        out_len: at,
    }
}

// The entries so far: which lines of them are whole, how many there are, and whether a run wants one more.
ghost use Rattle.std.specs.Prelude.{◌≡◌, ◌≤◌, length};
ghost use Rattle.desk.specs.Entries.{line_ends, whole_in, wants_one};

use numbers::refusal::Refusal;

// The bytes up to the end of the last line that has its end.
pub fn whole_lines(s: &[u8]) -> usize
    ensures { (result ≤ length s.now) × (result ≡ whole_in s.now) }
{
    match s.iter().rposition(|b| *b == b'\n') {
        Some(last) => last + 1,
        None => 0,
    }
}

// How many lines have their end.
pub fn line_ends(s: &[u8]) -> usize
    ensures { result ≡ line_ends s.now }
{
    s.iter().filter(|b| **b == b'\n').count()
}

// Whether a run that took so many of these whole lines, and ended with this number, ended for want of one more.
pub fn wants_line(number: u8, taken: usize, entries: &[u8]) -> bool
    ensures { result ≡ wants_one number taken entries.now }
{
    number == Refusal::BadEntry.number() && line_ends(entries) <= taken
}

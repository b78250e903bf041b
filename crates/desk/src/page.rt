// A page: a lent slice whose first bytes are text. What is put on it goes behind them, as far as there is room, so that a
// message of several parts is written out in one go.
ghost use Rattle.std.specs.Prelude.{◌≡◌, ◌+◌, ◌≤◌, length, take, [], ◌∷◌};

use numbers::screen::{decimal_length, fill_decimal};

// Bytes that a column is wide.
const COLUMN: usize = 4;

// The text is the room's first `len` bytes.
#[derive(Drop)]
pub struct Page<'a> {
    room: &'a mut [u8],
    len: usize,
    ghost within: { len ≤ length room.now },
}

impl<'a> Page<'a> {
    ghost use Rattle.desk.specs.Page.{Put, written, count, number, right};

    // A page with no text yet.
    pub fn new(room: &'a mut [u8]) -> Page<'a>
        ensures same_reference { result.room.ghost_name ≡ room.entry.ghost_name }
        ensures kept { length result.room.now ≡ length room.old }
        ensures text { written result ≡ [] }
    {
        Page::behind(room, 0)
    }

    // A page whose text is the room's first `at` bytes, or all of the room where it has fewer.
    pub fn behind(room: &'a mut [u8], at: usize) -> Page<'a>
        ensures same_reference { result.room.ghost_name ≡ room.entry.ghost_name }
        ensures kept { length result.room.now ≡ length room.old }
        ensures text { written result ≡ take at room.old }
    {
        let len = at.min(room.len());
        Page { room, len }
    }

    // How many bytes more there is room for.
    pub fn left(&self) -> usize
        ensures { result + self.now.len ≡ length self.now.room.now }
    {
        self.room.len() - self.len
    }

    // The text so far.
    pub fn text(&self) -> &[u8]
        ensures { result.now ≡ written self.now }
    {
        &self.room[..self.len]
    }

    // Puts a text.
    pub fn put(&mut self, text: &[u8])
        ensures { Put text.now self.old self.new }
    {
        let n = text.len().min(self.room.len() - self.len);
        let end = self.len + n;
        self.room[self.len..end].copy_from_slice(&text[..n]);
        self.len = end;
    }

    // Puts a byte.
    pub fn put_byte(&mut self, b: u8)
        ensures { Put (b ∷ []) self.old self.new }
    {
        if self.len < self.room.len() {
            self.room[self.len] = b;
            self.len += 1;
        }
    }

    // Puts a count in decimal.
    pub fn put_count(&mut self, n: u64)
        ensures { Put (count n) self.old self.new }
    {
        let mut figures = [0; 20];
        let k = io::decimal(n, &mut figures);
        self.put(&figures[..k]);
    }

    // Puts a number in decimal, a minus in front where it is negative.
    pub fn put_number(&mut self, x: i64)
        ensures { Put (number x) self.old self.new }
    {
        let size = decimal_length(x);
        if self.left() < size {
            self.put_cut(x);
            return;
        }
        let start = self.len;
        let end = start + size;
        fill_decimal(&mut self.room[start..end], x);
        self.len = end;
    }

    // Puts as much of a number as there is room for.
    fn put_cut(&mut self, x: i64)
        ensures { Put (number x) self.old self.new }
    {
        if x < 0 {
            self.put(b"-");
        }
        self.put_count(x.unsigned_abs());
    }

    // Puts a count in decimal, with blanks in front up to four bytes.
    pub fn put_right(&mut self, n: u64)
        ensures { Put (right n) self.old self.new }
    {
        let mut figures = [0; 20];
        let k = io::decimal(n, &mut figures);
        if k < COLUMN {
            self.put(&[b' '; COLUMN][k..]);
        }
        self.put(&figures[..k]);
    }
}

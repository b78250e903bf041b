// Where a run of bytes of one class ends, and the byte at a place.
ghost use Rattle.std.specs.Prelude.{◌≡◌, Bool, ℕ, ◌+◌, get_or, drop};
ghost use Rattle.numbers.specs.Bytes.{span};

// The byte at i, or 0 past the end.
pub fn byte_at(text: &[u8], i: usize) -> u8
    ensures { result ≡ get_or text.now i 0 }
{
    text.get(i).copied().unwrap_or(0)
}

// Past the bytes from `at` on that pass the test.
pub fn past<F: Fn(u8) -> bool>(text: &[u8], at: usize, test: F) -> usize
    requires { F.IsAlwaysCallable test }
    ensures { (p : ℕ → Bool) → ((b : ℕ) (r : Bool) → F.post test b r → r ≡ p b) → result ≡ at + span p (drop at text.now) }
{
    for i in at..text.len() {
        if !test(text[i]) {
            return i;
        }
    }
    at.max(text.len())
}

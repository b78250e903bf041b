// Names as parts of the text, and their hashes.
ghost use Rattle.std.specs.Prelude.{◌≡◌, ◌+◌, ◌≤◌, length};
ghost use Rattle.symbols.specs.Table.{part, hash_of};

// A name that is asked for, with its hash.
#[derive(Clone, Copy)]
pub struct Name<'a> {
    pub bytes: &'a [u8],
    pub hash: u32,
    ghost hashed: { hash ≡ hash_of bytes.now },
}

impl<'a> Name<'a> {
    pub fn new(bytes: &'a [u8]) -> Name<'a>
        ensures { result.bytes.now ≡ bytes.now }
    {
        Name {
            bytes,
            hash: hash(bytes),
        }
    }
}

// A part of the text, by its offset and length.
pub fn part(text: &[u8], at: u32, len: u32) -> &[u8]
    requires { at + len ≤ length text.now }
    ensures { result.now ≡ part text.now at len }
{
    &text[at as usize..][..len as usize]
}

// A name's hash.
fn hash(name: &[u8]) -> u32
    ensures { result ≡ hash_of name.now }
{
    let mut h: u32 = 0;
    for b in name {
        h = h.wrapping_mul(16777619).wrapping_add(u32::from(*b));
    }
    h
}

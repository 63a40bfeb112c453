//! Parts of byte arrays.
ghost use Rattle.std.specs.Prelude.{◌≡◌, ◌≤◌, ◌+◌, ◌++◌, length, take, drop};

/// Puts these bytes into a text, from this place on.
pub fn put(text: &mut [u8], at: usize, bytes: &[u8])
    requires { at + length bytes.now ≤ length text.old }
    ensures { text.new ≡ take at text.old ++ (bytes.now ++ drop (at + length bytes.now) text.old) }
{
    text[at..at + bytes.len()].copy_from_slice(bytes);
}

/// Sixteen bytes from this place on.
pub fn sixteen(bytes: &[u8], at: usize) -> [u8; 16]
    requires { at + 16 ≤ length bytes.now }
    ensures { result ≡ take 16 (drop at bytes.now) }
{
    let mut piece = [0; 16];
    piece.copy_from_slice(&bytes[at..at + 16]);
    piece
}

//! What a line is.
ghost use Rattle.std.specs.Prelude.{◌≡◌};
ghost use Rattle.line_stream.specs.Lines.{is_blank, text_of, without_cr};

/// The most bytes that a line of a point or of a request has, without its LF and with its CR.
pub const LONGEST_LINE: usize = 8192;

/// The text of a line of these bytes, of which an LF followed or not: one CR before an LF is left out.
pub fn text_of(bytes: &[u8], ended: bool) -> &[u8]
    ensures { result.now ≡ text_of (record { bytes = bytes.now; ended = ended }) }
{
    if ended { without_cr(bytes) } else { bytes }
}

/// The bytes without one CR at their end.
fn without_cr(bytes: &[u8]) -> &[u8]
    ensures { result.now ≡ without_cr bytes.now }
{
    match bytes {
        [text @ .., b'\r'] => text,
        _ => bytes,
    }
}

/// Whether there is nothing but spaces.
pub fn is_blank(text: &[u8]) -> bool
    ensures { result ≡ is_blank text.now }
{
    text.iter().all(|b| *b == b' ')
}

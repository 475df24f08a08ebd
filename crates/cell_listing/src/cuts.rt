//! Texts cut at bytes.
ghost use Rattle.std.specs.Prelude.{◌≡◌, ◌<◌, length, IfSome};
ghost use Rattle.std.specs.Option.{option_map};
ghost use Rattle.cell_listing.specs.Cuts.{before, behind, place_of};

/// The place of the first such byte.
fn place_of(text: &[u8], byte: u8) -> Option<usize>
    ensures place { result ≡ place_of byte text.now }
    ensures within { IfSome result (λ at. at < length text.now) }
{
    text.iter().position(|b| *b == byte)
}

/// What stands before the first such byte, or all, and what stands behind it, if it is there.
pub fn cut(text: &[u8], byte: u8) -> (&[u8], Option<&[u8]>)
    ensures before { result.0.now ≡ before byte text.now }
    ensures behind { option_map (λ rest. rest.now) result.1 ≡ behind byte text.now }
{
    match place_of(text, byte) {
        Some(at) => (&text[..at], Some(&text[at + 1..])),
        None => (text, None),
    }
}

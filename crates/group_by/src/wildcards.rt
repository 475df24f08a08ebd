//! Texts in which a `*` stands for any text.
ghost use Rattle.std.specs.Prelude.{◌≡◌, ◌↔◌, ℕ, List, ◌∷◌, length, IsTrue};
ghost use Rattle.std.specs.Option.{option_map};
ghost use Rattle.query_text.specs.Cuts.{parts_by};
ghost use Rattle.group_by.specs.Wildcards.{begins, fills, fits, passes_behind, some_end, Fits};

use query_text::cuts::cut;

/// Whether a value is this text with each `*` in it replaced by some text, perhaps an empty one. Each part between two `*` is
/// looked for behind the one before it, and is taken where it is found first.
pub fn fits(text: &[u8], value: &[u8]) -> bool
    ensures tests { result ≡ fits text.now value.now }
    ensures fits { IsTrue result ↔ Fits text.now value.now }
{
    let (part, behind) = cut(text, b'*');
    match behind {
        None => part == value,
        Some(rest) => begins(part, rest, value),
    }
}

/// Whether a value begins with a part, and an end of what stands behind fits this text.
fn begins(part: &[u8], text: &[u8], value: &[u8]) -> bool
    ensures { result ≡ begins part.now (some_end (fits text.now)) value.now }
{
    match value.strip_prefix(part) {
        Some(rest) => end_fits(text, rest),
        None => false,
    }
}

/// Whether some end of a value fits a text.
fn end_fits(text: &[u8], value: &[u8]) -> bool
    ensures { result ≡ some_end (fits text.now) value.now }
{
    let mut wild = text;
    let mut end = value;
    loop {
        let (part, behind) = cut(wild, b'*');
        let Some(more) = behind else {
            return end.ends_with(part);
        };
        let Some(rest) = behind_first(part, end) else {
            return false;
        };
        wild = more;
        end = rest;
    }
}

/// What stands behind the first place of a value at which a part begins.
fn behind_first<'v>(part: &[u8], value: &'v [u8]) -> Option<&'v [u8]>
    ensures { (next : List ℕ) (parts : List (List ℕ)) → some_end (fills (part.now ∷ next ∷ parts)) value.now ≡ passes_behind (some_end (fills (next ∷ parts))) (option_map (λ rest. rest.now) result) }
{
    let mut end = value;
    loop {
        if let Some(rest) = end.strip_prefix(part) {
            return Some(rest);
        }
        let Some((_, rest)) = end.split_first() else {
            return None;
        };
        end = rest;
    }
}

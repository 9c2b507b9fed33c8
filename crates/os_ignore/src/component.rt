//! The components of a path, which slashes separate, and the lines of a file.
ghost use Rattle.std.specs.Prelude.{◌≡◌, ◌∷◌, ◌<◌, length, Some, MatchOption, IfSome};
ghost use Rattle.os_ignore.specs.Components.{IsPlain, IsCut, IsLastComponent, pieces, left_pieces, left_size};

/// What comes before the first separator, and what comes after it; `None` where there is none.
pub fn split_first(separator: u8, text: &[u8]) -> Option<(&[u8], &[u8])>
    ensures cut { MatchOption result (IsPlain separator text.now)
        (λ cut. IsCut separator text.now cut.0.now cut.1.now × IsPlain separator cut.0.now) }
    ensures shorter { IfSome result (λ cut. length cut.1.now < length text.now) }
{
    for (i, b) in text.iter().enumerate() {
        if *b == separator {
            return Some((&text[..i], &text[i + 1..]));
        }
    }
    None
}

/// The first piece between separators, and what is left after it.
#[inline(always)]
pub fn split_piece(separator: u8, rest: &[u8]) -> (&[u8], Option<&[u8]>)
    ensures parts { pieces separator rest.entry.now
        ≡ result.0.now ∷ left_pieces separator result.1 }
    ensures shorter { left_size result.1 < left_size (Some rest.entry) }
{
    match split_first(separator, rest) {
        Some((first, more)) => (first, Some(more)),
        None => (rest, None),
    }
}

/// What comes before the last separator, and what comes after it; `None` where there is none.
pub fn split_last(separator: u8, text: &[u8]) -> Option<(&[u8], &[u8])>
    ensures { MatchOption result (IsPlain separator text.entry.now)
        (λ cut. IsCut separator text.entry.now cut.0.now cut.1.now × IsPlain separator cut.1.now) }
{
    let mut at = text.len();
    while at > 0 {
        if text[at - 1] == separator {
            return Some((&text[..at - 1], &text[at..]));
        }
        at -= 1;
    }
    None
}

/// The last component.
pub fn last_component(path: &[u8]) -> &[u8]
    ensures { IsLastComponent path.now result.now }
{
    match split_last(b'/', path) {
        Some((_, name)) => name,
        None => path,
    }
}

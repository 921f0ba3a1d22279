//! The lines of a text.
ghost use Rattle.std.specs.Prelude.{◌≡◌, ◌+◌, ◌++◌, ◌∷◌, length, IfSome, IfNone};
ghost use Rattle.nb_streams.specs.Lines.{IsLine};

use memchr::memchr;

/// The first line, without its line feed, and what follows it; `None` where there is no line feed.
pub fn split_line(text: &[u8]) -> Option<(&[u8], &[u8])>
    ensures found { IfSome result (λ parts. text.now ≡ parts.0.now ++ 10 ∷ parts.1.now) }
    ensures first { IfSome result (λ parts. IsLine parts.0.now) }
    ensures shorter { IfSome result (λ parts.
        length parts.0.now + 1 + length parts.1.now ≡ length text.now) }
    ensures none { IfNone result (IsLine text.now) }
{
    match memchr(b'\n', text) {
        Some(end) => Some((&text[..end], &text[end + 1..])),
        None => None,
    }
}

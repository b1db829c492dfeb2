//! The lines of a text.
ghost use Rattle.std.specs.Prelude.{◌≡◌, ◌≢◌, ◌<◌, ◌==◌, [], ◌∷◌, IfSome, length, position};
ghost use Rattle.image_hex.specs.Lines.{line_feed, lines_of, without_return};

/// The first line of a text that is not empty, and the text behind its end.
pub(crate) fn first_line(text: &[u8]) -> (&[u8], &[u8])
    requires { text.now ≢ [] }
    ensures lines { lines_of text.now ≡ result.0.now ∷ lines_of result.1.now }
    ensures shorter { length result.1.now < length text.now }
{
    match end_of(text) {
        Some(end) => (unended(&text[..end]), &text[end + 1..]),
        None => (text, &[]),
    }
}

/// Where the first line ends.
fn end_of(text: &[u8]) -> Option<usize>
    ensures at { result ≡ position (λ byte. byte == line_feed) text.now }
    ensures within { IfSome result (λ end. end < length text.now) }
{
    text.iter().position(|byte| *byte == b'\n')
}

/// The line without the carriage return at its end, if it has one.
fn unended(line: &[u8]) -> &[u8]
    ensures { result.now ≡ without_return line.now }
{
    match line {
        [front @ .., last] if *last == b'\r' => front,
        _ => line,
    }
}

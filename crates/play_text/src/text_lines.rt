// Cutting a text into lines.
ghost use Rattle.std.specs.Prelude.{◌≡◌, ◌<◌, ◌∷◌, length};
ghost use Rattle.play_text.specs.TextLines.{lines_in};

/// The first line with its line feed, and what stands behind it.
pub fn first_line(text: &[u8]) -> (&[u8], &[u8])
    requires { 0 < length text.now }
    ensures lines { lines_in text.now ≡ result.0.now ∷ lines_in result.1.now }
    ensures shorter { length result.1.now < length text.now }
{
    let mut end = 0;
    for b in text {
        end += 1;
        if *b == b'\n' {
            return (&text[..end], &text[end..]);
        }
    }
    (text, &text[text.len()..])
}

// Cutting a script's line into words.
ghost use Rattle.std.specs.Prelude.{◌≡◌, ◌≤◌, ◌<◌, ◌+◌, ◌∷◌, length, count_by, bytes_eq};
ghost use Rattle.std.specs.Option.{option_map};
ghost use Rattle.play_text.specs.Script.{content, words_in};
ghost use Rattle.play_text.specs.ScriptParts.{words_behind, behind_size, two_words};

/// A line without the line feed that ends it.
pub fn content(line: &[u8]) -> &[u8]
    ensures { result.now ≡ content line.now }
{
    let mut len = 0;
    for b in line {
        if *b == b'\n' {
            return &line[..len];
        }
        len += 1;
    }
    line
}

/// The first word, and what stands behind the blank that ends it, where one does.
pub fn first_word(text: &[u8]) -> (&[u8], Option<&[u8]>)
    ensures words { words_in text.now ≡ result.0.now ∷ words_behind (option_map (λ rest. rest.now) result.1) }
    ensures shorter { behind_size (option_map (λ rest. rest.now) result.1) < length text.now + 1 }
{
    let mut len = 0;
    for b in text {
        if *b == b' ' {
            return (&text[..len], Some(&text[len + 1..]));
        }
        len += 1;
    }
    (text, None)
}

/// The words of a text that has two.
pub fn two_words(text: &[u8]) -> Option<(&[u8], &[u8])>
    ensures { option_map (λ words. (words.0.now, words.1.now)) result ≡ two_words (words_in text.now) }
{
    let (first, Some(rest)) = first_word(text) else {
        return None;
    };
    match first_word(rest) {
        (second, None) => Some((first, second)),
        (_, Some(_)) => None,
    }
}

/// How many times a word stands in a text.
pub fn times(word: &[u8], text: &[u8]) -> usize
    ensures count { result ≡ count_by (bytes_eq word.now) (words_in text.now) }
    ensures few { result ≤ length text.now + 1 }
{
    let mut count = 0;
    let mut rest = Some(text);
    while let Some(text) = rest {
        let (found, behind) = first_word(text);
        if word == found {
            count += 1;
        }
        rest = behind;
    }
    count
}

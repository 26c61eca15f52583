//! Texts cut into lines, and lines into words.
ghost use Rattle.std.specs.Prelude.{◌≡◌, ◌<◌, ◌==◌, false, [], ◌∷◌, ◌++◌, Some, None, MatchOption, IfSome, length, option_map};
ghost use Rattle.std.specs.List.{list_any, position_from};
ghost use Rattle.hop_script.specs.Text.{lines_of, words_of, two_of, three_of};

// The bytes before the first such byte, and those behind it.
fn cut_at(byte: u8, bytes: &[u8]) -> Option<(&[u8], &[u8])>
    ensures { MatchOption result (list_any (λ c. c == byte) bytes.now ≡ false) (λ x. (bytes.now ≡ x.0.now ++ byte ∷ x.1.now) × (list_any (λ c. c == byte) x.0.now ≡ false)) }
{
    let at = place_of(byte, bytes)?;
    Some((&bytes[..at], &bytes[at + 1..]))
}

// Where the first such byte stands.
fn place_of(byte: u8, bytes: &[u8]) -> Option<usize>
    ensures value { result ≡ position_from (λ c. c == byte) 0 bytes.now }
    ensures within { IfSome result (λ k. k < length bytes.now) }
{
    bytes.iter().position(|c| *c == byte)
}

// The first line of a text that isn't empty, and the text behind its line feed, if it has one.
pub fn next_line(text: &[u8]) -> Option<(&[u8], &[u8])>
    requires { 0 < length text.now }
    ensures { MatchOption result (lines_of text.now ≡ None ∷ []) (λ x. (lines_of text.now ≡ Some x.0.now ∷ lines_of x.1.now) × (length x.1.now < length text.now)) }
{
    let (line, after) = cut_at(b'\n', text)?;
    Some((line, after))
}

// The first word of a line, and what stands behind the space after it, if there is one.
pub fn next_word(line: &[u8]) -> Option<(&[u8], &[u8])>
    ensures { MatchOption result (words_of line.now ≡ line.now ∷ []) (λ x. words_of line.now ≡ x.0.now ∷ words_of x.1.now) }
{
    let (word, rest) = cut_at(b' ', line)?;
    Some((word, rest))
}

// The words of a line of two.
pub fn two_words(line: &[u8]) -> Option<(&[u8], &[u8])>
    ensures { option_map (λ x. (x.0.now, x.1.now)) result ≡ two_of (words_of line.now) }
{
    let (first, rest) = next_word(line)?;
    match next_word(rest) {
        Some(_) => None,
        None => Some((first, rest)),
    }
}

// The words of a line of three.
pub fn three_words(line: &[u8]) -> Option<(&[u8], &[u8], &[u8])>
    ensures { option_map (λ x. (x.0.now, x.1.now, x.2.now)) result ≡ three_of (words_of line.now) }
{
    let (first, rest) = next_word(line)?;
    let (second, third) = two_words(rest)?;
    Some((first, second, third))
}

//! The names of files on a command line.
ghost use Rattle.std.specs.Prelude.{◌≡◌, true};
ghost use Rattle.std.specs.List.{list_all};
ghost use Rattle.hop_words.specs.Names.{begins_name, is_alphanumeric, is_name, is_name_byte};

use hop_base::Text;

/// The greatest number of bytes of a name.
const MAX_NAME: usize = 100;

fn is_alphanumeric(c: u8) -> bool
    ensures { result ≡ is_alphanumeric c }
{
    matches!(c, b'0'..=b'9' | b'A'..=b'Z' | b'a'..=b'z')
}

fn is_name_byte(c: u8) -> bool
    ensures { result ≡ is_name_byte c }
{
    is_alphanumeric(c) || c == b'.' || c == b'_' || c == b'-'
}

fn begins_name(text: &[u8]) -> bool
    ensures { result ≡ begins_name text.now }
{
    match text {
        [] => false,
        [first, ..] => is_alphanumeric(*first) || *first == b'_',
    }
}

fn has_name_bytes(text: &[u8]) -> bool
    ensures { result ≡ list_all is_name_byte text.now }
{
    text.iter().all(|c| is_name_byte(*c))
}

/// Whether the text is a name: 1 to 100 letters, digits, `.`, `_` and `-` of ASCII, of which the
/// first is a letter, a digit or `_`.
pub fn is_name(text: &[u8]) -> bool
    ensures { result ≡ is_name text.now }
{
    begins_name(text) && has_name_bytes(text) && text.len() <= MAX_NAME
}

/// A name as a folder takes it.
pub fn file_name(name: &Text) -> &str
    requires { is_name name.now ≡ true }
    ensures { result.now ≡ name.now }
{
    match str::from_utf8(name.as_slice()) {
        Ok(name) => name,
        Err(_) => unreachable!(),
    }
}

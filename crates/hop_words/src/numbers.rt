//! The numbers on a command line.
ghost use Rattle.std.specs.Prelude.{◌≡◌};
ghost use Rattle.std.specs.Char.{is_ascii_digit};
ghost use Rattle.std.specs.List.{list_all};
ghost use Rattle.hop_words.specs.Clap.{texts_in};
ghost use Rattle.hop_words.specs.Numbers.{is_number, number_between, number_in, within};

/// The greatest number of digits.
const MAX_DIGITS: usize = 20;

fn is_digit(c: u8) -> bool
    ensures { result ≡ is_ascii_digit c }
{
    c.is_ascii_digit()
}

fn all_digits(text: &[u8]) -> bool
    ensures { result ≡ list_all is_ascii_digit text.now }
{
    text.iter().all(|c| is_digit(*c))
}

// Whether the text is 1 to 20 digits.
fn is_number(text: &[u8]) -> bool
    ensures { result ≡ is_number text.now }
{
    !text.is_empty() && text.len() <= MAX_DIGITS && all_digits(text)
}

// The number, where it lies between these two.
fn within(number: u32, least: u32, most: u32) -> Option<u32>
    ensures { result ≡ within least most number }
{
    if least <= number && number <= most {
        Some(number)
    } else {
        None
    }
}

/// The number that the text writes, where it is one and lies between these two.
pub fn number_between(text: &str, least: u32, most: u32) -> Option<u32>
    ensures { result ≡ number_between least most text.now }
{
    if !is_number(text.as_bytes()) {
        return None;
    }
    match text.parse::<u32>() {
        Ok(number) => within(number, least, most),
        Err(_) => None,
    }
}

/// The number of an option by the values that it was given: its default where there are none, and
/// nothing where there are two, or one that isn't in its range.
pub fn number_in(least: u32, most: u32, default: u32, values: Option<&[&str]>) -> Option<u32>
    ensures { result ≡ number_in least most default (texts_in values.entry) }
{
    match values {
        None | Some([]) => Some(default),
        Some([value]) => number_between(value, least, most),
        Some(_) => None,
    }
}

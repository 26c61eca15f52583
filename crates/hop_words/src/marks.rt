//! The marks at which snapshots are taken, and whether these cover tentative data.
ghost use Rattle.std.specs.Prelude.{◌≡◌, ◌≤◌, length, map, Some, None, IfOk, IsErrOf};
ghost use Rattle.hop_words.specs.Clap.{texts_in};
ghost use Rattle.hop_words.specs.Marks.{marks_above, marks_in, marks_of, pieces, yes_or_no, yes_or_no_in};

use crate::fault::WordsFault;
use crate::numbers::number_between;
use hop_base::Marks;
use hop_base::limits::{MAX_MARK, MAX_MARKS};
use std::alloc::{AllocError, Global};

// The texts between the commas of a text.
fn pieces<'a>(alloc: Global, text: &'a str) -> Result<Vec<&'a str>, AllocError>
    ensures { IfOk result (λ texts. map (λ t. t.now) texts.items ≡ pieces text.entry.now) }
{
    text.split(',').collect(alloc)
}

// The marks that these texts write, each above the one before it.
fn ascending(alloc: Global, texts: &[&str]) -> Result<Marks, WordsFault>
    requires { length texts.now ≤ 16 }
    ensures marks { IfOk result (λ marks. marks_above 0 (map (λ t. t.now) texts.entry.now) ≡ Some marks) }
    ensures usage { IsErrOf result WordsFault.Usage → marks_above 0 (map (λ t. t.now) texts.entry.now) ≡ None }
{
    let mut marks = Marks::new(alloc);
    let mut low = 0;
    for text in texts {
        let Some(mark) = number_between(text, low + 1, MAX_MARK as u32) else {
            return Err(WordsFault::Usage);
        };
        let Ok(()) = marks.push(mark as u16) else {
            return Err(WordsFault::NoMemory);
        };
        low = mark;
    }
    Ok(marks)
}

// The marks of a text: 1 to 16 of them, between commas.
fn marks_of(alloc: Global, text: &str) -> Result<Marks, WordsFault>
    ensures marks { IfOk result (λ marks. marks_of text.now ≡ Some marks) }
    ensures usage { IsErrOf result WordsFault.Usage → marks_of text.now ≡ None }
{
    let Ok(texts) = pieces(alloc, text) else {
        return Err(WordsFault::NoMemory);
    };
    if texts.len() > MAX_MARKS {
        return Err(WordsFault::Usage);
    }
    ascending(alloc, &texts)
}

/// The marks of an option by the values that it was given: none where there are none. `Usage` comes exactly where there
/// are two, or one that writes no marks.
pub fn marks_in(alloc: Global, values: Option<&[&str]>) -> Result<Marks, WordsFault>
    ensures marks { IfOk result (λ marks. marks_in (texts_in values.entry) ≡ Some marks) }
    ensures usage { IsErrOf result WordsFault.Usage → marks_in (texts_in values.entry) ≡ None }
{
    match values {
        None | Some([]) => Ok(Marks::new(alloc)),
        Some([value]) => marks_of(alloc, value),
        Some(_) => Err(WordsFault::Usage),
    }
}

// What the text says.
fn yes_or_no(text: &str) -> Option<bool>
    ensures { result ≡ yes_or_no text.now }
{
    match text {
        "yes" => Some(true),
        "no" => Some(false),
        _ => None,
    }
}

/// What an option says by the values that it was given: its default where there are none, and nothing where there are
/// two, or one that is neither `yes` nor `no`.
pub fn yes_or_no_in(default: bool, values: Option<&[&str]>) -> Option<bool>
    ensures { result ≡ yes_or_no_in default (texts_in values.entry) }
{
    match values {
        None | Some([]) => Some(default),
        Some([value]) => yes_or_no(value),
        Some(_) => None,
    }
}

//! The record counts of a run.
ghost use Rattle.std.specs.Prelude.{◌≡◌, IfOk};
ghost use Rattle.hop_records.specs.Records.{lens_of};

use hop_base::{Lens, NoMemory};
use hop_records::Book;
use std::alloc::Global;

/// How many records each split of the book has.
pub fn lens_of_book(alloc: Global, book: &Book) -> Result<Lens, NoMemory>
    ensures { IfOk result (λ lens. lens ≡ lens_of book.now) }
{
    let mut lens = Lens::new(alloc);
    for i in 0..book.splits() {
        lens.push(book.len(i))?;
    }
    Ok(lens)
}

//! The lines of a snapshot's header, as they are written.
ghost use Rattle.std.specs.Prelude.{◌≡◌, ◌≤◌, ◌++◌, [], ◌∷◌, OnOk, decimal, length};
ghost use Rattle.hop_cut.specs.Snapshot.{split_line, split_lines, text_of, last_line};
ghost use Rattle.hop_cut.specs.Parts.{first_lines};
ghost use Rattle.hop_cut.specs.Covered.{declared_lines};
ghost use Rattle.std.specs.Option.{option_map};

use hop_base::NoMemory;
use hop_cover::Declared;
use itoa::Buffer;

// Writes the piece and the number.
fn push_number(text: &mut Vec<u8>, piece: &[u8], n: u32) -> Result<(), NoMemory>
    ensures { OnOk result (text.new.items ≡ text.old.items ++ (piece.now ++ decimal n)) }
{
    let mut buffer = Buffer::new();
    text.extend_from_slice(piece)?;
    text.extend_from_slice(buffer.format(n).as_bytes())?;
    Ok(())
}

/// Writes the lines before those of the splits.
pub(crate) fn push_first(
    text: &mut Vec<u8>,
    name: &[u8],
    mark: u16,
    p: u8,
    r: u8,
    progress: u16,
) -> Result<(), NoMemory>
    ensures { OnOk result (text.new.items ≡ text.old.items ++ text_of (first_lines name.now mark p r progress)) }
{
    text.extend_from_slice(b"hop-snapshot 1\njob ")?;
    text.extend_from_slice(name)?;
    push_number(text, b"\nmark ", u32::from(mark))?;
    push_number(text, b"\nreducer ", u32::from(p))?;
    push_number(text, b" of ", u32::from(r))?;
    push_number(text, b"\nprogress ", u32::from(progress))?;
    text.extend_from_slice(b"\n")?;
    Ok(())
}

/// Writes the lines of the splits, and the header's last line.
pub(crate) fn push_splits(
    text: &mut Vec<u8>,
    lens: &[u32],
    declared: &[Option<Declared>],
) -> Result<(), NoMemory>
    requires each { length declared.now ≡ length lens.now }
    requires few { length lens.now ≤ 1024 }
    ensures { OnOk result (text.new.items ≡ text.old.items ++ text_of (split_lines 0 (declared_lines declared.now lens.now) ++ last_line ∷ [])) }
{
    for (i, one) in declared.iter().enumerate() {
        push_split(text, i as u32, *one, lens[i])?;
    }
    text.extend_from_slice(b"--\n")?;
    Ok(())
}

// Writes the line of split i.
fn push_split(text: &mut Vec<u8>, i: u32, one: Option<Declared>, len: u32) -> Result<(), NoMemory>
    ensures { OnOk result (text.new.items ≡ text.old.items ++ text_of (split_line i (option_map (λ d. record { declared = d; len = len }) one) ∷ [])) }
{
    push_number(text, b"split ", i)?;
    let Some(d) = one else {
        text.extend_from_slice(b" none\n")?;
        return Ok(());
    };
    push_number(text, b" attempt ", u32::from(d.attempt))?;
    push_number(text, b" records ", d.records)?;
    push_number(text, b" of ", len)?;
    let kind: &[u8] = if d.committed {
        b" committed\n"
    } else {
        b" tentative\n"
    };
    text.extend_from_slice(kind)?;
    Ok(())
}

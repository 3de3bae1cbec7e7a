// The lines of targets.
ghost use Rattle.std.specs.Prelude.{◌≡◌, ◌++◌, true, codes, OnOk};
ghost use Rattle.std.specs.Fmt.{decimal};
ghost use Rattle.fs_name.specs.Shown.{shown_name};
ghost use Rattle.path_search.specs.Shown.{shown_at};
ghost use Rattle.path_search.specs.Texts as texts;

use fs_name::push_shown;
use itoa::Buffer;
use path_walk::{KeptTarget, ROOT};
use std::alloc::AllocError;

/// The letter of a kind of inode, as a listing shows it (File Modes).
#[tactic(auto, unfolding(path_search::specs::Texts::kind_text))]
pub fn kind_letter(kind: u16) -> &'static str
    ensures { result.now ≡ texts.kind_text kind }
{
    match kind {
        4 => "d",
        8 => "-",
        10 => "l",
        1 => "p",
        2 => "c",
        6 => "b",
        12 => "s",
        14 => "w",
        _ => "?",
    }
}

// Adds a blank and a number.
fn push_number(text: &mut Vec<u8>, number: u64) -> Result<(), AllocError>
    ensures { OnOk result (text.new.items ≡ text.old.items ++ (codes " " ++ decimal number)) }
{
    let mut digits = Buffer::new();
    text.push(b' ')?;
    text.extend_from_slice(digits.format(number).as_bytes())?;
    Ok(())
}

// Adds the kind, the id and the size that a line begins with, each with a blank after it.
fn push_head(text: &mut Vec<u8>, kind: u16, id: u64, size: u64) -> Result<(), AllocError>
    ensures { OnOk result (text.new.items ≡ text.old.items ++ (texts.kind_text kind ++ (codes " " ++ (decimal id ++ (codes " " ++ (decimal size ++ codes " ")))))) }
{
    text.extend_from_slice(kind_letter(kind).as_bytes())?;
    push_number(text, id)?;
    push_number(text, size)?;
    text.push(b' ')?;
    Ok(())
}

/// Adds the line of a target that is kept, with its path.
pub(crate) fn push_kept(
    text: &mut Vec<u8>,
    target: &KeptTarget,
    path: &[u8],
) -> Result<(), AllocError>
    ensures { OnOk result (text.new.items ≡ text.old.items ++ texts.line_text target.now path.now) }
{
    push_head(text, target.kind(), target.id(), target.size())?;
    text.extend_from_slice(path)?;
    text.push(b'\n')?;
    Ok(())
}

// Whether each byte of a name is shown as it is.
fn is_plain(name: &[u8]) -> bool
    ensures { result ≡ true → shown_name name.now ≡ name.now }
{
    'bytes: for byte in name {
        if *byte < 0x20 || *byte == 0x7f || *byte == b'/' || *byte == b'\\' {
            return false;
        }
    }
    true
}

/// Adds a name as it is shown. Most names are, and are copied at once.
pub(crate) fn push_name(text: &mut Vec<u8>, name: &[u8]) -> Result<(), AllocError>
    ensures { OnOk result (text.new.items ≡ text.old.items ++ shown_name name.now) }
{
    if is_plain(name) {
        text.extend_from_slice(name)
    } else {
        push_shown(text, name)
    }
}

/// Adds the name of an id as it is shown; that of the root is shown as it is.
pub(crate) fn push_name_of(text: &mut Vec<u8>, id: u64, name: &[u8]) -> Result<(), AllocError>
    ensures { OnOk result (text.new.items ≡ text.old.items ++ shown_at id name.now) }
{
    if id == ROOT {
        text.extend_from_slice(name)
    } else {
        push_name(text, name)
    }
}

/// Adds the line of a target, with its name, as the command `ls` writes it.
pub fn push_target(text: &mut Vec<u8>, target: &KeptTarget) -> Result<(), AllocError>
    ensures { OnOk result (text.new.items ≡ text.old.items ++ texts.target_text target.now) }
{
    push_head(text, target.kind(), target.id(), target.size())?;
    push_name_of(text, target.id(), target.name().as_bytes())?;
    text.push(b'\n')?;
    Ok(())
}

// Paths that stay in a folder.
ghost use Rattle.std.specs.Prelude.{◌≡◌, ◌==◌, true, IfOk, map, string_bytes};
ghost use Rattle.std.specs.List.{flat_map, slice_split};
ghost use Rattle.tree_export.specs.Safe as spec;
ghost use Rattle.tree_export.specs.Safe.{IsSafe};
ghost use Rattle.tree_export.specs.Parts.{MayFollow};

use path_search::choice::parts;
use std::alloc::{AllocError, Global};

// Whether a byte is written as it is after another one, whatever stands beside them: it isn't zero, and no component begins with a
// dot or is empty.
fn may_follow(before: u8, byte: u8) -> bool
    ensures { result ≡ true → MayFollow before byte }
{
    if byte == 0 {
        return false;
    }
    if before != b'/' {
        return true;
    }
    byte != b'/' && byte != b'.'
}

// Whether a path is found at once to be written as it is. Most are.
fn is_plain(path: &[u8]) -> bool
    ensures { result ≡ true → spec.safe_path path.now ≡ path.now }
{
    let mut before = b'/';
    'bytes: for byte in path {
        if !may_follow(before, *byte) {
            return false;
        }
        before = *byte;
    }
    before != b'/'
}

// A component as it is written: an empty one without a number, `.` and `..` by their bytes.
fn safe_part(part: &str) -> &str
    ensures { result.now ≡ spec.safe_part part.now }
{
    if part == "" {
        return "\\x";
    }
    if part == "." {
        return "\\x2e";
    }
    if part == ".." {
        return "\\x2e\\x2e";
    }
    part
}

// The components of a path as they are written.
fn safe_parts<'a>(alloc: Global, parts: &[&'a str]) -> Result<Vec<&'a str>, AllocError>
    ensures { IfOk result (λ safe. map (λ part. part.now) safe.items ≡ map (λ part. spec.safe_part part.now) parts.now) }
{
    let mut safe = Vec::new(alloc);
    for part in parts {
        safe.push(safe_part(part))?;
    }
    Ok(safe)
}

// The pieces of a text between its zero bytes.
fn between_zeros(alloc: Global, text: &str) -> Result<Vec<&str>, AllocError>
    ensures { IfOk result (λ pieces. map (λ piece. piece.now) pieces.items ≡ slice_split (λ byte. byte == 0) text.now) }
{
    text.split('\0').collect(alloc)
}

// A text with its zero bytes as they are written.
fn without_zeros(alloc: Global, text: &str) -> Result<String, AllocError>
    ensures { IfOk result (λ safe. string_bytes safe ≡ flat_map spec.safe_byte text.now) }
{
    let pieces = between_zeros(alloc, text)?;
    pieces.join(alloc, "\\x00")
}

// A path as it is written, made of its components.
fn written(alloc: Global, path: &str) -> Result<String, AllocError>
    ensures { IfOk result (λ safe. string_bytes safe ≡ spec.safe_path path.now) }
{
    let path = without_zeros(alloc, path)?;
    let parts = parts(alloc, &path)?;
    let safe = safe_parts(alloc, &parts)?;
    safe.join(alloc, "/")
}

/// A path as it is written into a folder: that of a row of `tree`, but a component that is `.` is written `\x2e`, and one that
/// is `..` is written `\x2e\x2e`. Names have no zero byte and aren't empty; in another path a zero byte is written `\x00`, and
/// an empty component `\x`.
pub fn safe_path(alloc: Global, path: &str) -> Result<String, AllocError>
    ensures written { IfOk result (λ safe. string_bytes safe ≡ spec.safe_path path.now) }
    ensures safe { IfOk result (λ safe. IsSafe (string_bytes safe)) }
{
    if is_plain(path.as_bytes()) {
        return String::from_str(alloc, path);
    }
    written(alloc, path)
}

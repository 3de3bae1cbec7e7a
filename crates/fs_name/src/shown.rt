// Names as they are shown.
ghost use Rattle.std.specs.Prelude.{◌≡◌, ◌<◌, ◌++◌, OnOk};
ghost use Rattle.fs_name.specs.Shown as spec;

use std::alloc::AllocError;

// A hexadecimal digit, in lower case.
fn hex_digit(n: u8) -> u8
    requires { n < 16 }
    ensures { result ≡ spec.hex_digit n }
{
    if n < 10 { b'0' + n } else { b'a' - 10 + n }
}

// Whether a byte isn't shown as it is.
fn is_hidden(byte: u8) -> bool
    ensures { result ≡ spec.is_hidden byte }
{
    byte < 0x20 || byte == 0x7f || byte == b'/' || byte == b'\\'
}

// Adds a byte as it is shown.
fn push_byte(text: &mut Vec<u8>, byte: u8) -> Result<(), AllocError>
    ensures { OnOk result (text.new.items ≡ text.old.items ++ spec.shown_byte byte) }
{
    if is_hidden(byte) {
        let shown = [b'\\', b'x', hex_digit(byte / 16), hex_digit(byte % 16)];
        text.extend_from_slice(&shown)?;
    } else {
        text.push(byte)?;
    }
    Ok(())
}

/// Adds a name as it is shown: each byte below 0x20, 0x7f, the slash and the backslash as `\x` and two hexadecimal
/// digits, each other one as it is.
pub fn push_shown(text: &mut Vec<u8>, name: &[u8]) -> Result<(), AllocError>
    ensures { OnOk result (text.new.items ≡ text.old.items ++ spec.shown_name name.now) }
{
    'bytes: for byte in name {
        push_byte(text, *byte)?;
    }
    Ok(())
}

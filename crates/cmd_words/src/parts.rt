//! The parts of a line, from what clap found in its words.
ghost use Rattle.std.specs.Prelude.{◌≡◌, is_some, option_map};
ghost use Rattle.clap.specs.Words.{first_of, found_of, rows_of};
ghost use Rattle.cmd_words.specs.Lines.{browse_by, check_by, flags_by, root_by, small_number, target_by, volume_alone, volume_by, xattr_by};
ghost use Rattle.cmd_words.specs.Lent.{asked_by, browse_asked, flags_asked, target_asked};

use crate::lines::{Flags, Line, Target};
use clap::ArgMatches;

// One or two decimal digits without a leading zero, or `0`.
fn number_of(text: &str) -> Option<u8>
    ensures { result ≡ small_number text.now }
{
    match text.as_bytes() {
        [d @ b'0'..=b'9'] => Some(*d - b'0'),
        [d @ b'1'..=b'9', e @ b'0'..=b'9'] => Some(10 * (*d - b'0') + (*e - b'0')),
        _ => None,
    }
}

// The volume that an option gives; None where what it gives is no number of a volume.
fn volume_of(value: Option<&str>) -> Option<Option<u8>>
    ensures { result ≡ volume_by (option_map (λ text. text.now) value.entry) }
{
    match value {
        None => Some(None),
        Some(text) => match number_of(text) {
            Some(volume) => Some(Some(volume)),
            None => None,
        },
    }
}

// The value that was found under a name.
fn text_in<'a>(matches: &ArgMatches<'a>, name: &str) -> Option<&'a str>
    ensures { option_map (λ text. text.now) result ≡ first_of name.now (rows_of (found_of matches.now)) }
{
    matches.get_str(name)
}

// Whether a flag was said.
fn is_said(matches: &ArgMatches<'_>, name: &str) -> bool
    ensures { result ≡ is_some (first_of name.now (rows_of (found_of matches.now))) }
{
    text_in(matches, name).is_some()
}

// Which flags were said.
fn flags_in(matches: &ArgMatches<'_>) -> Flags
    ensures { flags_asked result ≡ flags_by (λ name. first_of name (rows_of (found_of matches.now))) }
{
    Flags {
        quick: is_said(matches, "quick"),
        strict: is_said(matches, "strict"),
    }
}

// The path and its view.
fn target_in<'a>(matches: &ArgMatches<'a>) -> Option<Target<'a>>
    ensures { option_map target_asked result ≡ target_by (λ name. first_of name (rows_of (found_of matches.now))) }
{
    let Some(path) = text_in(matches, "path") else {
        return None;
    };
    let Some(volume) = volume_of(text_in(matches, "volume")) else {
        return None;
    };
    Some(Target {
        path,
        volume,
        snapshot: text_in(matches, "snapshot"),
    })
}

/// The flags, and the path with its view.
pub fn browse_in<'a>(matches: &ArgMatches<'a>) -> Option<(Flags, Target<'a>)>
    ensures { option_map browse_asked result ≡ browse_by (λ name. first_of name (rows_of (found_of matches.now))) }
{
    let Some(target) = target_in(matches) else {
        return None;
    };
    Some((flags_in(matches), target))
}

/// The line that asks for attributes.
pub fn xattr_in<'a>(matches: &ArgMatches<'a>) -> Option<Line<'a>>
    ensures { option_map asked_by result ≡ xattr_by (λ name. first_of name (rows_of (found_of matches.now))) }
{
    let Some(target) = target_in(matches) else {
        return None;
    };
    Some(Line::Xattr(flags_in(matches), target, text_in(matches, "name")))
}

/// The line that asks for a check.
pub fn check_in<'a>(matches: &ArgMatches<'a>) -> Option<Line<'a>>
    ensures { option_map asked_by result ≡ check_by (λ name. first_of name (rows_of (found_of matches.now))) }
{
    Some(Line::Check(is_said(matches, "strict")))
}

/// The volume, where one is named; None where what names it is no number of a volume.
pub fn volume_in(matches: &ArgMatches<'_>) -> Option<Option<u8>>
    ensures { result ≡ volume_alone (λ name. first_of name (rows_of (found_of matches.now))) }
{
    volume_of(text_in(matches, "volume"))
}

/// The root of a view; None where what names the volume is no number of one.
pub fn root_in<'a>(matches: &ArgMatches<'a>) -> Option<Target<'a>>
    ensures { option_map target_asked result ≡ root_by (λ name. first_of name (rows_of (found_of matches.now))) }
{
    let Some(volume) = volume_of(text_in(matches, "volume")) else {
        return None;
    };
    Some(Target {
        path: "/",
        volume,
        snapshot: text_in(matches, "snapshot"),
    })
}

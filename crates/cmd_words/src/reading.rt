//! A line, from its words.
ghost use Rattle.std.specs.Prelude.{◌≡◌, IfOk, map, option_map, true};
ghost use Rattle.std.specs.String.{string_bytes};
ghost use Rattle.clap.specs.Words.{app_of, found_of, is_simple_and_free, rows_of};
ghost use Rattle.cmd_words.specs.Asked.{Export, Snapshots, Usage};
ghost use Rattle.cmd_words.specs.Lent.{asked_by, browse_asked, target_asked};
ghost use Rattle.cmd_words.specs.ByClap.{export_by_clap, line_by_clap, read_by_clap};
ghost use Rattle.cmd_words.specs.Commands.{check_app, found_in, target_app, view_app, volume_app, xattr_app};
ghost use Rattle.cmd_words.specs.Lines.{alone, browse_by, check_by, line_of, root_by, volume_alone, xattr_by};

use crate::commands::{check_command, target_command, view_command, volume_command, xattr_command};
use crate::lines::{Flags, Line, Target};
use crate::parts::{browse_in, check_in, root_in, volume_in, xattr_in};
use clap::error::ErrorKind;
use clap::{ArgMatches, Command};
use std::alloc::{AllocError, Global};

// What a command finds in the words, where it takes them.
fn found<'a>(
    command: Command<'a>,
    words: &'a [String],
) -> Result<Option<ArgMatches<'a>>, AllocError>
    requires { is_simple_and_free (app_of command) ≡ true }
    ensures { IfOk result (λ matches. option_map (λ m. rows_of (found_of m)) matches
        ≡ found_in (app_of command.entry) (map string_bytes words.now)) }
{
    match command.try_get_matches_from(words) {
        Ok(matches) => Ok(Some(matches)),
        Err(error) => match error.kind() {
            ErrorKind::OutOfMemory => Err(AllocError),
            _ => Ok(None),
        },
    }
}

// A line that has no word after the image.
fn alone<'a>(line: Line<'a>, rest: &[String]) -> Option<Line<'a>>
    ensures { option_map asked_by result ≡ alone (asked_by line.entry) (map string_bytes rest.now) }
{
    match rest {
        [] => Some(line),
        _ => None,
    }
}

// The flags, and the path with its view.
fn browse_said<'a>(
    alloc: Global,
    rest: &'a [String],
) -> Result<Option<(Flags, Target<'a>)>, AllocError>
    ensures { IfOk result (λ browse. option_map browse_asked browse
        ≡ read_by_clap target_app browse_by (map string_bytes rest.entry.now)) }
{
    let Some(matches) = found(target_command(alloc)?, rest)? else {
        return Ok(None);
    };
    Ok(browse_in(&matches))
}

// The line that asks for a check.
fn check_line<'a>(alloc: Global, rest: &'a [String]) -> Result<Option<Line<'a>>, AllocError>
    ensures { IfOk result (λ line. option_map asked_by line
        ≡ read_by_clap check_app check_by (map string_bytes rest.entry.now)) }
{
    let Some(matches) = found(check_command(alloc)?, rest)? else {
        return Ok(None);
    };
    Ok(check_in(&matches))
}

// The line that asks for attributes.
fn xattr_line<'a>(alloc: Global, rest: &'a [String]) -> Result<Option<Line<'a>>, AllocError>
    ensures { IfOk result (λ line. option_map asked_by line
        ≡ read_by_clap xattr_app xattr_by (map string_bytes rest.entry.now)) }
{
    let Some(matches) = found(xattr_command(alloc)?, rest)? else {
        return Ok(None);
    };
    Ok(xattr_in(&matches))
}

// The volume, where one is named.
fn volume_said(alloc: Global, rest: &[String]) -> Result<Option<Option<u8>>, AllocError>
    ensures { IfOk result (λ volume. volume ≡ read_by_clap volume_app volume_alone (map string_bytes rest.now)) }
{
    let Some(matches) = found(volume_command(alloc)?, rest)? else {
        return Ok(None);
    };
    Ok(volume_in(&matches))
}

// The line that asks for snapshots.
fn snapshots_line<'a>(alloc: Global, rest: &'a [String]) -> Result<Option<Line<'a>>, AllocError>
    ensures { IfOk result (λ line. option_map asked_by line
        ≡ option_map Snapshots (read_by_clap volume_app volume_alone (map string_bytes rest.entry.now))) }
{
    match volume_said(alloc, rest)? {
        Some(volume) => Ok(Some(Line::Snapshots(volume))),
        None => Ok(None),
    }
}

// The line that asks how many blocks views keep from being freed.
fn usage_line<'a>(alloc: Global, rest: &'a [String]) -> Result<Option<Line<'a>>, AllocError>
    ensures { IfOk result (λ line. option_map asked_by line
        ≡ option_map Usage (read_by_clap volume_app volume_alone (map string_bytes rest.entry.now))) }
{
    match volume_said(alloc, rest)? {
        Some(volume) => Ok(Some(Line::Usage(volume))),
        None => Ok(None),
    }
}

// The root of the view that is named.
fn root_said<'a>(alloc: Global, rest: &'a [String]) -> Result<Option<Target<'a>>, AllocError>
    ensures { IfOk result (λ target. option_map target_asked target
        ≡ read_by_clap view_app root_by (map string_bytes rest.entry.now)) }
{
    let Some(matches) = found(view_command(alloc)?, rest)? else {
        return Ok(None);
    };
    Ok(root_in(&matches))
}

// The root of the view that is named, after the directory, which is taken as it stands.
fn export_said<'a>(alloc: Global, rest: &'a [String]) -> Result<Option<Target<'a>>, AllocError>
    ensures { IfOk result (λ target. option_map target_asked target ≡ export_by_clap (map string_bytes rest.entry.now)) }
{
    let [_dir, rest @ ..] = rest else {
        return Ok(None);
    };
    root_said(alloc, rest)
}

// The line that asks for what a view has.
fn export_line<'a>(alloc: Global, rest: &'a [String]) -> Result<Option<Line<'a>>, AllocError>
    ensures { IfOk result (λ line. option_map asked_by line
        ≡ option_map Export (export_by_clap (map string_bytes rest.entry.now))) }
{
    match export_said(alloc, rest)? {
        Some(target) => Ok(Some(Line::Export(target))),
        None => Ok(None),
    }
}

// The line that the words are, by clap's definitions.
fn line_by_clap<'a>(alloc: Global, words: &'a [String]) -> Result<Option<Line<'a>>, AllocError>
    ensures { IfOk result (λ line. option_map asked_by line ≡ line_by_clap (map string_bytes words.entry.now)) }
{
    let [command, _image, rest @ ..] = words else {
        return Ok(None);
    };
    match command.as_str() {
        "ring" => Ok(alone(Line::Ring, rest)),
        "info" => Ok(alone(Line::Info, rest)),
        "volumes" => Ok(alone(Line::Volumes, rest)),
        "space" => Ok(alone(Line::Space, rest)),
        "check" => check_line(alloc, rest),
        "snapshots" => snapshots_line(alloc, rest),
        "usage" => usage_line(alloc, rest),
        "ls" => Ok(browse_said(alloc, rest)?.map(|(flags, target)| Line::Ls(flags, target))),
        "tree" => Ok(browse_said(alloc, rest)?.map(|(flags, target)| Line::Tree(flags, target))),
        "cat" => Ok(browse_said(alloc, rest)?.map(|(flags, target)| Line::Cat(flags, target))),
        "xattr" => xattr_line(alloc, rest),
        "export" => export_line(alloc, rest),
        _ => Ok(None),
    }
}

/// The line that the words are, if they are one. The first word is the command and the second the image, and of `export` the
/// third is the directory; these are taken as they stand. A request for help is no line.
pub fn line_in<'a>(alloc: Global, words: &'a [String]) -> Result<Option<Line<'a>>, AllocError>
    ensures { IfOk result (λ line. option_map asked_by line ≡ line_of (map string_bytes words.entry.now)) }
{
    line_by_clap(alloc, words)
}

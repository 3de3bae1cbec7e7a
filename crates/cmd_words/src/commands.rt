//! The clap commands that read the words after the image.
ghost use Rattle.std.specs.Prelude.{◌≡◌, IfOk, false};
ghost use Rattle.clap.specs.Words.{app_of, rule_of};
ghost use Rattle.cmd_words.specs.Commands.{bare_app, check_app, flag_rule, option_rule, place_rule, target_app, view_app, volume_app, with_flags, with_view, xattr_app};

use clap::{Arg, ArgAction, Command};
use std::alloc::{AllocError, Global};

// A value by its place.
fn place<'a>(alloc: Global, name: &'a str, required: bool) -> Arg<'a>
    ensures rule { rule_of result ≡ place_rule required name.entry.now }
    ensures local { result.global ≡ false }
{
    Arg::new(alloc, name)
        .action(ArgAction::Set)
        .required(required)
}

// `--name VALUE`.
fn option<'a>(alloc: Global, name: &'a str) -> Arg<'a>
    ensures rule { rule_of result ≡ option_rule name.entry.now }
    ensures local { result.global ≡ false }
{
    Arg::new(alloc, name).action(ArgAction::Set).long(name)
}

// `--name`, which says `true` and takes no value.
fn flag<'a>(alloc: Global, name: &'a str) -> Arg<'a>
    ensures rule { rule_of result ≡ flag_rule name.entry.now }
    ensures local { result.global ≡ false }
{
    Arg::new(alloc, name)
        .action(ArgAction::Set)
        .long(name)
        .num_args(0_usize)
        .default_missing_value("true")
}

// A command that reads every word that it is given, and has no help.
fn bare_command<'a>(alloc: Global) -> Command<'a>
    ensures { app_of result ≡ bare_app }
{
    Command::new(alloc, "")
        .no_binary_name(true)
        .disable_help_flag(true)
}

// `[--volume N] [--snapshot NAME]`, after what a command has.
fn with_view<'a>(alloc: Global, command: Command<'a>) -> Result<Command<'a>, AllocError>
    ensures { IfOk result (λ made. app_of made ≡ with_view (app_of command.entry)) }
{
    command
        .arg(option(alloc, "volume"))?
        .arg(option(alloc, "snapshot"))
}

// `[--quick] [--strict]`, after what a command has.
fn with_flags<'a>(alloc: Global, command: Command<'a>) -> Result<Command<'a>, AllocError>
    ensures { IfOk result (λ made. app_of made ≡ with_flags (app_of command.entry)) }
{
    command
        .arg(flag(alloc, "quick"))?
        .arg(flag(alloc, "strict"))
}

/// `PATH [--volume N] [--snapshot NAME] [--quick] [--strict]`.
pub fn target_command<'a>(alloc: Global) -> Result<Command<'a>, AllocError>
    ensures { IfOk result (λ command. app_of command ≡ target_app) }
{
    let command = bare_command(alloc).arg(place(alloc, "path", true))?;
    with_flags(alloc, with_view(alloc, command)?)
}

/// `PATH [NAME] [--volume N] [--snapshot NAME] [--quick] [--strict]`.
pub fn xattr_command<'a>(alloc: Global) -> Result<Command<'a>, AllocError>
    ensures { IfOk result (λ command. app_of command ≡ xattr_app) }
{
    let command = bare_command(alloc)
        .arg(place(alloc, "path", true))?
        .arg(place(alloc, "name", false))?;
    with_flags(alloc, with_view(alloc, command)?)
}

/// `[--strict]`.
pub fn check_command<'a>(alloc: Global) -> Result<Command<'a>, AllocError>
    ensures { IfOk result (λ command. app_of command ≡ check_app) }
{
    bare_command(alloc).arg(flag(alloc, "strict"))
}

/// `[--volume N]`.
pub fn volume_command<'a>(alloc: Global) -> Result<Command<'a>, AllocError>
    ensures { IfOk result (λ command. app_of command ≡ volume_app) }
{
    bare_command(alloc).arg(option(alloc, "volume"))
}

/// `[--volume N] [--snapshot NAME]`.
pub fn view_command<'a>(alloc: Global) -> Result<Command<'a>, AllocError>
    ensures { IfOk result (λ command. app_of command ≡ view_app) }
{
    with_view(alloc, bare_command(alloc))
}

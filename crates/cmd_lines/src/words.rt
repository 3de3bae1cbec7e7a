// The words after the program's name.
ghost use Rattle.std.specs.Prelude.{◌≡◌, map, option_map, IfOk};
ghost use Rattle.std.specs.String.{string_bytes};
ghost use Rattle.cmd_words.specs.Lent.{asked_by, flags_asked};
ghost use Rattle.cmd_lines.specs.Words.{command_of, new_of, plain_of, asked_of, count_said, files_said, gen_files, spec_said, new_spec};
ghost use Rattle.cmd_lines.specs.Lent.{said, line_said, spec_of};
ghost use Rattle.cmd_lines.specs.Words as lines;
ghost use Rattle.uuid.specs.Text.{parsed};

use cmd_words::{Flags, Line, Target, line_in};
use std::alloc::{AllocError, Global};
use uuid::Uuid;
use view_rules::Profile;

// The most files of an image that is made.
const MOST_FILES: u32 = 20_000;

// The least number of blocks of a new container, the greatest, and the longest name of its volume.
const LEAST_BLOCKS: u32 = 256;

const MOST_BLOCKS: u32 = 32_768;

const MOST_OF_A_NAME: usize = 255;

/// Whether the container is checked before a command looks at it.
#[derive(Clone, Copy, PartialEq, Eq)]
pub enum Checks {
    /// It isn't.
    Quick,
    /// It is, under a profile, and the command goes on only where it is well-formed.
    First(Profile),
}

/// What a line of words asks for of an image, with its words beside it, where no folder is taken.
#[derive(Clone, Copy, PartialEq, Eq)]
pub enum Command<'a> {
    /// The candidates of the descriptor ring.
    Ring,
    /// The newest checkpoint.
    Info,
    /// The volumes.
    Volumes,
    /// The space that is in use and free.
    Space,
    /// Whether the container is well-formed under a profile.
    Check(Profile),
    /// The snapshots of the volume in the slot that is named, or of the first volume.
    Snapshots(Option<u8>),
    /// How many blocks each view of the volume in the slot that is named, or of the first volume, keeps from being freed.
    Usage(Option<u8>),
    /// What a path lists in a view.
    Ls(Checks, Target<'a>),
    /// What is under a path in a view.
    Tree(Checks, Target<'a>),
    /// The contents of a file in a view.
    Cat(Checks, Target<'a>),
    /// The attributes of what a path leads to in a view, or what the one of a name holds.
    Xattr(Checks, Target<'a>, Option<&'a str>),
}

/// A new container, with its volume's name among the words.
#[derive(Clone, Copy, PartialEq, Eq)]
pub struct NewContainer<'a> {
    /// How many blocks it has.
    pub blocks: u64,
    /// The volume's name.
    pub name: &'a str,
    /// The container's identifier.
    pub container: [u8; 16],
    /// The volume's identifier.
    pub volume: [u8; 16],
}

/// What a line asks for.
#[derive(Clone, Copy, PartialEq, Eq)]
pub enum Order<'a> {
    /// A command on an image that takes no folder.
    On {
        /// Whether the image is the partition of a disk that holds a container.
        in_partition: bool,
        /// The command.
        command: Command<'a>,
    },
    /// What a view has, put into a folder. The container is checked first.
    Export {
        /// Whether the image is the partition of a disk that holds a container.
        in_partition: bool,
        /// The root of the view.
        target: Target<'a>,
    },
    /// An image of so many files, 20,000 at most, and whether its container is well-formed.
    Gen(u32),
    /// A new container.
    Format(NewContainer<'a>),
}

impl Command<'_> {
    /// Whether the container is checked first.
    pub fn checks(self) -> Checks
        ensures { result ≡ lines.checks_of (said self.entry) }
    {
        match self {
            Command::Ring | Command::Info | Command::Volumes => Checks::Quick,
            Command::Space | Command::Check(_) | Command::Snapshots(_) => Checks::Quick,
            Command::Usage(_) => Checks::First(Profile::Plain),
            Command::Ls(checks, _) | Command::Tree(checks, _) => checks,
            Command::Cat(checks, _) | Command::Xattr(checks, ..) => checks,
        }
    }
}

// The profile that a flag chooses.
fn profile_by(strict: bool) -> Profile
    ensures { result ≡ lines.profile_by strict }
{
    if strict {
        Profile::Strict
    } else {
        Profile::Plain
    }
}

// Whether the container is checked first.
fn checks_by(flags: Flags) -> Checks
    ensures { result ≡ lines.checks_by (flags_asked flags) }
{
    if flags.quick {
        Checks::Quick
    } else {
        Checks::First(profile_by(flags.strict))
    }
}

// The order of a line, on what is handed in or on a partition of it.
fn built<'a>(in_partition: bool, line: Line<'a>) -> Order<'a>
    ensures { line_said result ≡ lines.line_in in_partition (lines.built (asked_by line.entry)) }
{
    let command = match line {
        Line::Export(target) => {
            return Order::Export {
                in_partition,
                target,
            };
        }
        Line::Ring => Command::Ring,
        Line::Info => Command::Info,
        Line::Volumes => Command::Volumes,
        Line::Snapshots(volume) => Command::Snapshots(volume),
        Line::Usage(volume) => Command::Usage(volume),
        Line::Space => Command::Space,
        Line::Check(strict) => Command::Check(profile_by(strict)),
        Line::Ls(flags, target) => Command::Ls(checks_by(flags), target),
        Line::Tree(flags, target) => Command::Tree(checks_by(flags), target),
        Line::Cat(flags, target) => Command::Cat(checks_by(flags), target),
        Line::Xattr(flags, target, name) => Command::Xattr(checks_by(flags), target, name),
    };
    Order::On {
        in_partition,
        command,
    }
}

// What a command asks for, on what is handed in or on a partition of it.
#[tactic(auto, unfolding(crate::specs::Words::command_of))]
fn order_in<'a>(
    alloc: Global,
    words: &'a [String],
    in_partition: bool,
) -> Result<Option<Order<'a>>, AllocError>
    ensures { IfOk result (λ order. option_map line_said order ≡ option_map (lines.line_in in_partition) (command_of (map string_bytes words.entry.now))) }
{
    match line_in(alloc, words)? {
        Some(line) => Ok(Some(built(in_partition, line))),
        None => Ok(None),
    }
}

// The number of a digit other than `0`.
fn leading(byte: u8) -> Option<u32>
    ensures { result ≡ lines.leading byte }
{
    match byte {
        b'1'..=b'9' => Some(u32::from(byte - b'0')),
        _ => None,
    }
}

// A number of four digits at most, and one digit more.
fn joined(before: Option<u32>, byte: u8) -> Option<u32>
    ensures { result ≡ lines.joined before byte }
{
    match (before, byte) {
        (Some(number), b'0'..=b'9') if number <= 9999 => Some(10 * number + u32::from(byte - b'0')),
        _ => None,
    }
}

// One to five decimal digits without a leading zero, or `0`.
fn count_of(text: &str) -> Option<u32>
    ensures { result ≡ count_said text.now }
{
    match text.as_bytes() {
        [b'0'] => Some(0),
        [a] => leading(*a),
        [a, b] => joined(leading(*a), *b),
        [a, b, c] => joined(joined(leading(*a), *b), *c),
        [a, b, c, d] => joined(joined(joined(leading(*a), *b), *c), *d),
        [a, b, c, d, e] => joined(joined(joined(joined(leading(*a), *b), *c), *d), *e),
        _ => None,
    }
}

// A number of files that can be made.
fn files_of(text: &str) -> Option<u32>
    ensures { result ≡ files_said text.now }
{
    match count_of(text) {
        Some(files) if files <= MOST_FILES => Some(files),
        _ => None,
    }
}

// How many files are asked for, where the command is `gen`.
fn files_named(command: &str, count: &str) -> Option<u32>
    ensures { result ≡ lines.files_named command.now count.now }
{
    match command {
        "gen" => files_of(count),
        _ => None,
    }
}

// How many files `gen` is asked for.
fn files_in(words: &[String]) -> Option<u32>
    ensures { result ≡ gen_files (map string_bytes words.entry.now) }
{
    match words {
        [command, count] => files_named(command.as_str(), count.as_str()),
        _ => None,
    }
}

// The number of blocks of a new container.
fn blocks_of(text: &str) -> Option<u64>
    ensures { result ≡ lines.blocks_said text.now }
{
    match count_of(text) {
        Some(blocks) if blocks >= LEAST_BLOCKS && blocks <= MOST_BLOCKS => Some(u64::from(blocks)),
        _ => None,
    }
}

// Whether a volume can have such a name.
fn is_name(text: &str) -> bool
    ensures { result ≡ lines.is_name text.now }
{
    match text.len() {
        1..=MOST_OF_A_NAME => !text.as_bytes().contains(&0),
        _ => false,
    }
}

// The name of a volume.
fn name_of(text: &str) -> Option<&str>
    ensures { option_map (λ name. name.now) result ≡ lines.name_said text.entry.now }
{
    if is_name(text) { Some(text) } else { None }
}

// The identifier that a word is.
fn identifier_of(text: &str) -> Option<[u8; 16]>
    ensures { result ≡ parsed text.now }
{
    match Uuid::try_parse(text) {
        Ok(identifier) => Some(identifier.into_bytes()),
        Err(_) => None,
    }
}

// The new container that its parts say.
fn new_by<'a>(
    blocks: &str,
    name: &'a str,
    container: &str,
    volume: &str,
) -> Option<NewContainer<'a>>
    ensures { option_map spec_of result ≡ spec_said blocks.now name.entry.now container.now volume.now }
{
    let Some(blocks) = blocks_of(blocks) else {
        return None;
    };
    let Some(name) = name_of(name) else {
        return None;
    };
    let Some(container) = identifier_of(container) else {
        return None;
    };
    let Some(volume) = identifier_of(volume) else {
        return None;
    };
    Some(NewContainer {
        blocks,
        name,
        container,
        volume,
    })
}

// Which new container is asked for, where the command is `format`.
fn new_named<'a>(command: &str, wanted: Option<NewContainer<'a>>) -> Option<NewContainer<'a>>
    ensures { option_map spec_of result ≡ lines.spec_named command.now (option_map spec_of wanted.entry) }
{
    match command {
        "format" => wanted,
        _ => None,
    }
}

// Which new container `format` is asked for.
fn new_in(words: &[String]) -> Option<NewContainer<'_>>
    ensures { option_map spec_of result ≡ new_spec (map string_bytes words.entry.now) }
{
    match words {
        [command, blocks, name, container, volume] => new_named(
            command.as_str(),
            new_by(
                blocks.as_str(),
                name.as_str(),
                container.as_str(),
                volume.as_str(),
            ),
        ),
        _ => None,
    }
}

// What words ask for that ask neither for a partition nor for an image that is made.
fn new_or_command_in<'a>(
    alloc: Global,
    words: &'a [String],
) -> Result<Option<Order<'a>>, AllocError>
    ensures { IfOk result (λ order. option_map line_said order ≡ new_of (map string_bytes words.entry.now)) }
{
    match new_in(words) {
        Some(wanted) => Ok(Some(Order::Format(wanted))),
        None => order_in(alloc, words, false),
    }
}

// What words ask for that don't ask for a partition.
fn plain_in<'a>(alloc: Global, words: &'a [String]) -> Result<Option<Order<'a>>, AllocError>
    ensures { IfOk result (λ order. option_map line_said order ≡ plain_of (map string_bytes words.entry.now)) }
{
    match files_in(words) {
        Some(files) => Ok(Some(Order::Gen(files))),
        None => new_or_command_in(alloc, words),
    }
}

// The words after `--gpt`, where they begin so.
fn after_gpt(words: &[String]) -> Option<&[String]>
    ensures { option_map (λ rest. map string_bytes rest.now) result ≡ lines.after_gpt (map string_bytes words.entry.now) }
{
    let [first, rest @ ..] = words else {
        return None;
    };
    match first.as_str() {
        "--gpt" => Some(rest),
        _ => None,
    }
}

/// What the words ask for; None where they are no line of the program.
pub fn asked<'a>(alloc: Global, words: &'a [String]) -> Result<Option<Order<'a>>, AllocError>
    ensures { IfOk result (λ order. option_map line_said order ≡ asked_of (map string_bytes words.entry.now)) }
{
    match after_gpt(words) {
        Some(rest) => order_in(alloc, rest, true),
        None => plain_in(alloc, words),
    }
}

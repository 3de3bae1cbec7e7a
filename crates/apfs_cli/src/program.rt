// The program, over what it is handed.
ghost use Rattle.std.specs.Prelude.{◌≡◌, ◌≤◌, [], map, option_map, List, ℕ, None, Some};
ghost use Rattle.std.specs.String.{string_bytes};
ghost use Rattle.apfs_model.specs.Sink.{Wrote};
ghost use Rattle.apfs_model.specs.Kept.{IsKept};
ghost use Rattle.apfs_check.specs.WellFormed.{IsWellFormed};
ghost use Rattle.blk_folder.specs.Items.{Item};
ghost use Rattle.cmd_words.specs.Lent.{target_asked};
ghost use Rattle.img_format.specs.declared.spec.Spec.{Spec};
ghost use Rattle.cmd_texts.specs.Handed.{looked, looked_at, stored_in, IsGivenKept};
ghost use Rattle.cmd_lines.specs.Outcome as outcomes;
ghost use Rattle.apfs_cli.specs.Rows.{BothWrote, HasText, NamesFault, NamesFeature, NamesAnswer, SaysReadFailed, SaysOutOfMemory, HasFailedPut, HasDefinedText, HasDefinedItems, HasDefinedAnswer, HasSound, HasUnsound, HasTableFault, IsExactly, IsOrFree, IsCleanOrFree, IsFoundOrFree, IsUndisturbed, IsCompleted, IsFilledWith, HasSafeMore, IsNewOrFree, IsRefusal, IsTurnedAway, lead_in, MayFill};
ghost use Rattle.cmd_texts.specs.Ended.{IsOfMade, HasEnded, HasCome, CameOver};
ghost use Rattle.cmd_texts.specs.Says.{HasNoImage, HasNoFolder, IsOpenedKept, IsUntouched, CameTo};
ghost use Rattle.cmd_lines.specs.Stops.{outcome_of};
ghost use Rattle.cmd_lines.specs.Words.{Check, Export, Format, Gen, asked_of, line_in, plain_line};
ghost use Rattle.cmd_lines.specs.Lent.{said};
ghost use Rattle.cmd_lines.specs.Written.{sunk};
ghost use Rattle.cmd_lines.specs.Putting.{IsClosed};
ghost use Rattle.cmd_lines.specs.declared.named.Named.{Named};

use crate::in_partition::{fill, on_order};
use blk_folder::{Folder, Given};
use blk_source::{BlockSource, Opened, Sink, SureSource};
use cmd_lines::say::say;
use cmd_lines::{Command, Order, Stopped, asked};
use cmd_texts::commands::{check, generated, new_container};
use cmd_words::Target;
use std::alloc::Global;
use std::mem;
use view_rules::Profile;

// Runs a command that takes no folder on what was handed in.
fn on_opened<S: BlockSource, W: Sink>(
    alloc: Global,
    in_partition: bool,
    command: Command<'_>,
    image: &mut Opened<S>,
    out: &mut W,
) -> Result<(), Stopped>
    ensures answer { HasCome (Some (line_in in_partition (said command.entry))) (looked_at S.bytes S.faults image.old image.new) None result (sunk W.contents W.faults out.old out.new) }
    ensures kept { IsOpenedKept S.bytes S.bytes_len image.old image.new }
{
    match mem::replace(image, Opened::Absent) {
        Opened::Absent => Err(Stopped::NoImage),
        Opened::Image(src) => {
            let (ended, src) = on_order(alloc, in_partition, command, src, out);
            *image = Opened::Image(src);
            ended
        }
    }
}

// Fills the folder that was handed in, and gives the image back.
fn fill_given<S: BlockSource, W: Sink, F: Folder>(
    alloc: Global,
    in_partition: bool,
    target: Target<'_>,
    src: S,
    out: &mut W,
    folder: &mut Given<F>,
) -> (Result<(), Stopped>, S)
    ensures answer { HasCome (Some (line_in in_partition (Export (target_asked target.entry)))) (Some (looked S.bytes S.faults src result.1)) (stored_in F.contents F.faults folder.old folder.new) result.0 (sunk W.contents W.faults out.old out.new) }
    ensures kept { IsKept S.bytes S.bytes_len S.faults src result.1 }
    ensures given { IsGivenKept folder.old folder.new }
{
    match folder {
        Given::Nothing => (Err(Stopped::NoFolder), src),
        Given::Into(folder) => fill(alloc, in_partition, target, src, out, folder),
    }
}

// Fills the folder that was handed in from the image that was.
fn fill_opened<S: BlockSource, W: Sink, F: Folder>(
    alloc: Global,
    in_partition: bool,
    target: Target<'_>,
    image: &mut Opened<S>,
    out: &mut W,
    folder: &mut Given<F>,
) -> Result<(), Stopped>
    ensures answer { HasCome (Some (line_in in_partition (Export (target_asked target.entry)))) (looked_at S.bytes S.faults image.old image.new) (stored_in F.contents F.faults folder.old folder.new) result (sunk W.contents W.faults out.old out.new) }
    ensures kept { IsOpenedKept S.bytes S.bytes_len image.old image.new }
    ensures given { IsGivenKept folder.old folder.new }
{
    match mem::replace(image, Opened::Absent) {
        Opened::Absent => Err(Stopped::NoImage),
        Opened::Image(src) => {
            let (ended, src) = fill_given(alloc, in_partition, target, src, out, folder);
            *image = Opened::Image(src);
            ended
        }
    }
}

// Runs what the words ask for.
fn decide<S: BlockSource, W: Sink, F: Folder>(
    alloc: Global,
    words: &[String],
    image: &mut Opened<S>,
    out: &mut W,
    folder: &mut Given<F>,
) -> Result<(), Stopped>
    ensures answer { HasCome (asked_of (map string_bytes words.now)) (looked_at S.bytes S.faults image.old image.new) (stored_in F.contents F.faults folder.old folder.new) result (sunk W.contents W.faults out.old out.new) }
    ensures kept { IsOpenedKept S.bytes S.bytes_len image.old image.new }
    ensures given { IsGivenKept folder.old folder.new }
{
    let found = match asked(alloc, words) {
        Ok(found) => found,
        Err(_) => return Err(Stopped::OutOfMemory),
    };
    match found {
        Some(order) => match order {
            Order::On {
                in_partition,
                command,
            } => on_opened(alloc, in_partition, command, image, out),
            Order::Export {
                in_partition,
                target,
            } => fill_opened(alloc, in_partition, target, image, out, folder),
            Order::Gen(files) => generated::write(alloc, files, out, &mut None),
            Order::Format(wanted) => new_container::write(alloc, wanted, out),
        },
        None => Err(Stopped::WrongWords),
    }
}

// Gives the status of a run, and says why where there is no text.
fn close<E: Sink>(alloc: Global, ended: Result<(), Stopped>, err: &mut E) -> u8
    ensures { (part : List ℕ) → IsClosed result (outcome_of ended part) (sunk E.contents E.faults err.old err.new) }
{
    match ended {
        Ok(()) => 0,
        Err(stopped) => say(alloc, stopped, err),
    }
}

// Runs what the words ask for, and says why where there is no text.
fn end<S: BlockSource, W: Sink, E: Sink, F: Folder>(
    alloc: Global,
    words: &[String],
    image: &mut Opened<S>,
    out: &mut W,
    err: &mut E,
    folder: &mut Given<F>,
) -> u8
    ensures answer { CameTo (asked_of (map string_bytes words.now)) (looked_at S.bytes S.faults image.old image.new) (stored_in F.contents F.faults folder.old folder.new) result (sunk W.contents W.faults out.old out.new) (sunk E.contents E.faults err.old err.new) }
    ensures kept { IsOpenedKept S.bytes S.bytes_len image.old image.new }
    ensures given { IsGivenKept folder.old folder.new }
{
    let ended = decide(alloc, words, image, out, folder);
    close(alloc, ended, err)
}

/// The program once the words are read and the image is opened: writes the text of the command on `out` and nothing on
/// `err`, or a line on `err` that says why not, and gives the status to end with. `export` alone takes the folder: it puts
/// directories and files into it, one after the other, and leaves there what was put where it stops. To every other command it
/// makes no difference what is handed in for it.
pub fn run<S: BlockSource, W: Sink, E: Sink, F: Folder>(
    alloc: Global,
    words: &[String],
    image: &mut Opened<S>,
    out: &mut W,
    err: &mut E,
    folder: &mut Given<F>,
) -> u8
    // It comes to an outcome that the words and what is handed in allow, has written its text, and says its line or a put of it fails.
    ensures answer { CameTo (asked_of (map string_bytes words.now)) (looked_at S.bytes S.faults image.old image.new) (stored_in F.contents F.faults folder.old folder.new) result (sunk W.contents W.faults out.old out.new) (sunk E.contents E.faults err.old err.new) }
    ensures kept { IsOpenedKept S.bytes S.bytes_len image.old image.new }
    ensures given { IsGivenKept folder.old folder.new }

    // What each status says.
    ensures text { result ≡ 0 → HasText (asked_of (map string_bytes words.now)) (looked_at S.bytes S.faults image.old image.new) (stored_in F.contents F.faults folder.old folder.new) (sunk W.contents W.faults out.old out.new) (sunk E.contents E.faults err.old err.new) }
    ensures fault { result ≡ 1 → NamesFault (asked_of (map string_bytes words.now)) (looked_at S.bytes S.faults image.old image.new) (stored_in F.contents F.faults folder.old folder.new) (sunk W.contents W.faults out.old out.new) (sunk E.contents E.faults err.old err.new) }
    ensures usage { result ≡ 2 → BothWrote (sunk W.contents W.faults out.old out.new) (sunk E.contents E.faults err.old err.new) outcomes.WrongWords }
    ensures read_failed { result ≡ 3 → SaysReadFailed (asked_of (map string_bytes words.now)) (looked_at S.bytes S.faults image.old image.new) (stored_in F.contents F.faults folder.old folder.new) (sunk W.contents W.faults out.old out.new) (sunk E.contents E.faults err.old err.new) }
    ensures write_failed { result ≡ 4 → HasFailedPut (asked_of (map string_bytes words.now)) (looked_at S.bytes S.faults image.old image.new) (stored_in F.contents F.faults folder.old folder.new) (sunk W.contents W.faults out.old out.new) (sunk E.contents E.faults err.old err.new) }
    ensures out_of_memory { result ≡ 5 → SaysOutOfMemory (asked_of (map string_bytes words.now)) (looked_at S.bytes S.faults image.old image.new) (stored_in F.contents F.faults folder.old folder.new) (sunk W.contents W.faults out.old out.new) (sunk E.contents E.faults err.old err.new) }
    ensures feature { result ≡ 6 → NamesFeature (asked_of (map string_bytes words.now)) (looked_at S.bytes S.faults image.old image.new) (stored_in F.contents F.faults folder.old folder.new) (sunk W.contents W.faults out.old out.new) (sunk E.contents E.faults err.old err.new) }
    ensures answered { result ≡ 7 → NamesAnswer (asked_of (map string_bytes words.now)) (looked_at S.bytes S.faults image.old image.new) (stored_in F.contents F.faults folder.old folder.new) (sunk W.contents W.faults out.old out.new) (sunk E.contents E.faults err.old err.new) }
    ensures absent { result ≡ 8 → BothWrote (sunk W.contents W.faults out.old out.new) (sunk E.contents E.faults err.old err.new) outcomes.NoImage }
    ensures nowhere { result ≡ 9 → BothWrote (sunk W.contents W.faults out.old out.new) (sunk E.contents E.faults err.old err.new) outcomes.NoFolder }

    // When each status comes.
    ensures wrong_words { IsExactly result 2 (asked_of (map string_bytes words.now) ≡ None) }
    ensures no_image { IsExactly result 8 (HasNoImage (asked_of (map string_bytes words.now)) (looked_at S.bytes S.faults image.old image.new)) }
    ensures no_folder { IsExactly result 9 (HasNoFolder (asked_of (map string_bytes words.now)) (looked_at S.bytes S.faults image.old image.new) (stored_in F.contents F.faults folder.old folder.new)) }
    ensures no_part { (named : Named) → HasTableFault (asked_of (map string_bytes words.now)) (looked_at S.bytes S.faults image.old image.new) (stored_in F.contents F.faults folder.old folder.new) named → IsOrFree result 1 }
    ensures whole { HasDefinedText (asked_of (map string_bytes words.now)) (looked_at S.bytes S.faults image.old image.new) (stored_in F.contents F.faults folder.old folder.new) → IsOrFree result 0 }
    ensures always_answered { HasDefinedAnswer (asked_of (map string_bytes words.now)) (looked_at S.bytes S.faults image.old image.new) (stored_in F.contents F.faults folder.old folder.new) → IsOrFree result 7 }
    ensures clean { HasSound (asked_of (map string_bytes words.now)) (looked_at S.bytes S.faults image.old image.new) (stored_in F.contents F.faults folder.old folder.new) → IsCleanOrFree result }
    ensures flawed { HasUnsound (asked_of (map string_bytes words.now)) (looked_at S.bytes S.faults image.old image.new) (stored_in F.contents F.faults folder.old folder.new) → IsFoundOrFree result }
    ensures completed { IsUndisturbed (asked_of (map string_bytes words.now)) (looked_at S.bytes S.faults image.old image.new) (stored_in F.contents F.faults folder.old folder.new) (sunk W.contents W.faults out.old out.new) (sunk E.contents E.faults err.old err.new) → IsCompleted result }

    // What a folder gets.
    ensures filled { (items : List Item) → HasDefinedItems (asked_of (map string_bytes words.now)) (looked_at S.bytes S.faults image.old image.new) (stored_in F.contents F.faults folder.old folder.new) items → IsFilledWith result (sunk W.contents W.faults out.old out.new) (stored_in F.contents F.faults folder.old folder.new) items }
    ensures safe { HasSafeMore (stored_in F.contents F.faults folder.old folder.new) }

    // How `format` ends.
    ensures new { (spec : Spec) → asked_of (map string_bytes words.now) ≡ Some (plain_line (Format spec)) → IsNewOrFree spec result (sunk W.contents W.faults out.old out.new) }

    // What a stop leaves.
    ensures lead { IsRefusal result → Wrote (W.contents out.old) (W.contents out.new) (lead_in (asked_of (map string_bytes words.now))) }
    ensures turned_away { IsTurnedAway result → Wrote (W.contents out.old) (W.contents out.new) [] }
    ensures folder_kept { (MayFill (asked_of (map string_bytes words.now)) (looked_at S.bytes S.faults image.old image.new) result → ⊥) → IsUntouched (stored_in F.contents F.faults folder.old folder.new) }
{
    end(alloc, words, image, out, err, folder)
}

// Checks a container, and says why where there is no report.
fn end_check<S: BlockSource, W: Sink, E: Sink>(
    alloc: Global,
    src: &mut S,
    profile: Profile,
    out: &mut W,
    err: &mut E,
) -> u8
    ensures answer { CameTo (Some (plain_line (Check profile))) (Some (looked S.bytes S.faults src.old src.new)) None result (sunk W.contents W.faults out.old out.new) (sunk E.contents E.faults err.old err.new) }
    ensures kept { IsKept S.bytes S.bytes_len S.faults src.old src.new }
{
    let ended = check::write(alloc, profile, src, out);
    close(alloc, ended, err)
}

/// What `check` does once the words are read and the image is opened: writes what is told of a container that is well-formed under
/// a profile on `out` and nothing on `err`, or a line on `err` that says why not, and gives the status to end with.
pub fn report<S: BlockSource, W: Sink, E: Sink>(
    alloc: Global,
    src: &mut S,
    profile: Profile,
    out: &mut W,
    err: &mut E,
) -> u8
    // It comes to an outcome of `check` that the image allows, has written its text, and says its line or a put of it fails.
    ensures answer { CameTo (Some (plain_line (Check profile))) (Some (looked S.bytes S.faults src.old src.new)) None result (sunk W.contents W.faults out.old out.new) (sunk E.contents E.faults err.old err.new) }
    ensures kept { IsKept S.bytes S.bytes_len S.faults src.old src.new }

    // What each status says.
    ensures text { result ≡ 0 → HasText (Some (plain_line (Check profile))) (Some (looked S.bytes S.faults src.old src.new)) None (sunk W.contents W.faults out.old out.new) (sunk E.contents E.faults err.old err.new) }
    ensures fault { result ≡ 1 → NamesFault (Some (plain_line (Check profile))) (Some (looked S.bytes S.faults src.old src.new)) None (sunk W.contents W.faults out.old out.new) (sunk E.contents E.faults err.old err.new) }
    ensures read_failed { result ≡ 3 → SaysReadFailed (Some (plain_line (Check profile))) (Some (looked S.bytes S.faults src.old src.new)) None (sunk W.contents W.faults out.old out.new) (sunk E.contents E.faults err.old err.new) }
    ensures write_failed { result ≡ 4 → HasFailedPut (Some (plain_line (Check profile))) (Some (looked S.bytes S.faults src.old src.new)) None (sunk W.contents W.faults out.old out.new) (sunk E.contents E.faults err.old err.new) }
    ensures out_of_memory { result ≡ 5 → SaysOutOfMemory (Some (plain_line (Check profile))) (Some (looked S.bytes S.faults src.old src.new)) None (sunk W.contents W.faults out.old out.new) (sunk E.contents E.faults err.old err.new) }
    ensures feature { result ≡ 6 → NamesFeature (Some (plain_line (Check profile))) (Some (looked S.bytes S.faults src.old src.new)) None (sunk W.contents W.faults out.old out.new) (sunk E.contents E.faults err.old err.new) }
    ensures clean { (image : List ℕ) → S.bytes src.old ≡ Some image → IsWellFormed profile image → IsOrFree result 0 }
    ensures flawed { (image : List ℕ) → S.bytes src.old ≡ Some image → (IsWellFormed profile image → ⊥) → IsFoundOrFree result }
    ensures completed { IsUndisturbed (Some (plain_line (Check profile))) (Some (looked S.bytes S.faults src.old src.new)) None (sunk W.contents W.faults out.old out.new) (sunk E.contents E.faults err.old err.new) → IsCompleted result }

    // What a stop leaves.
    ensures lead { IsRefusal result → Wrote (W.contents out.old) (W.contents out.new) [] }
{
    end_check(alloc, src, profile, out, err)
}

/// What `gen` does: makes an image of so many files and leaves it in `made`, or None where memory ran out for it; writes how
/// many there are and the report of the image on `out` and nothing on `err`, or a line on `err` that says why not, and gives the
/// status to end with.
pub fn gen_report<W: Sink, E: Sink>(
    alloc: Global,
    files: u32,
    out: &mut W,
    err: &mut E,
    made: &mut Option<SureSource>,
) -> u8
    requires { files ≤ 20000 }
    // It comes to an outcome over the image that is made, as `check` does, after the line that says how many files there are.
    ensures answer { CameOver (Gen files) (option_map (λ source. source.bytes) made.new) result (sunk W.contents W.faults out.old out.new) (sunk E.contents E.faults err.old err.new) }
    ensures statuses { IsOfMade result }
{
    let ended = generated::write(alloc, files, out, made);
    close(alloc, ended, err)
}

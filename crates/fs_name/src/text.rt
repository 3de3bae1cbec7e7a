// Names as they are stored.
ghost use Rattle.std.specs.Prelude.{◌≡◌, option_map};
ghost use Rattle.fs_name.specs.Steps.{name_of};

/// The name in a stored name, which is UTF-8, ends with its one zero and has another byte before it; None exactly for other bytes.
/// Takes no memory.
#[tactic(auto, using(crate::proofs::TextLemmas::stored_names))]
pub fn stored_name(raw: &[u8]) -> Option<&str>
    ensures { option_map (λ name. name.now) result ≡ name_of raw.now }
{
    let (end, name) = raw.split_last()?;
    if *end != 0 || name.is_empty() || name.contains(&0) {
        return None;
    }
    str::from_utf8(name).ok()
}

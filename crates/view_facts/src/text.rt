// A name that is kept, and the sibling's id of its entry, where it has one.
ghost use Rattle.std.specs.Prelude.{◌≡◌, ◌≤◌, Option, None, Some, length, IsOk, IfOk, IfSome, IsSome, IsTrue};
ghost use Rattle.std.specs.String.{string_bytes};
ghost use Rattle.view_facts.specs.Texts.{bytes_of, sibling_of};

use blk_source::NoMemory;
use std::alloc::Global;
use std::marker::Model;
use std::str;

/// The greatest length of a name that is kept in place, in bytes: what an entry has room for beside its numbers.
const SHORT_SIZE: usize = 30;

/// A name in place.
#[derive(Drop)]
pub(crate) struct Short {
    len: u8,
    bytes: [u8; SHORT_SIZE],
}

impl Model for Short {
    ghost use Rattle.std.specs.Prelude.{◌≤◌, ℕ, List, take, IsUtf8};

    ghost Value = { List ℕ };

    ghost view = { λ short. take short.len short.bytes };

    ghost invariant = { λ short. (short.len ≤ 30) × ∥ IsUtf8 (take short.len short.bytes) ∥₁ };
}

impl Short {
    // A name in place, where it isn't too long.
    fn of(name: &str) -> Option<Short>
        ensures copy { IfSome result (λ short. short ≡ name.now) }
        ensures fits { length name.now ≤ SHORT_SIZE → IsSome result }
    {
        let text = name.as_bytes();
        if text.len() > SHORT_SIZE {
            return None;
        }
        let mut bytes = [0; SHORT_SIZE];
        bytes[..text.len()].copy_from_slice(text);
        Some(Short {
            len: text.len() as u8,
            bytes,
        })
    }

    // The name.
    fn as_str(&self) -> &str
        ensures { result.now ≡ self.now }
    {
        unsafe { str::from_utf8_unchecked(&self.bytes[..self.len as usize]) }
    }
}

/// The least id of a sibling that has no room beside the name: one of 49 bits.
const FAR_ID: u64 = 1 << 48;

/// A name, and a sibling's id that has no room beside it.
#[derive(Drop)]
pub(crate) struct FarTwin {
    name: String,
    sibling: u64,
}

/// A name that is kept: in place where it is short, and on the heap where it is long, or where its entry has a sibling's id, as few have. Each takes 32 bytes,
/// since small fields lie beside the tag: the two parts of a sibling's id too, where it has no more than 48 bits.
#[derive(Drop)]
pub(crate) enum Text {
    Short(Short),
    Long(String),
    Twin {
        upper: u16,
        lower: u32,
        name: String,
    },
    FarTwin(Box<FarTwin>),
}

/// A copy of a name.
pub(crate) fn copied(alloc: Global, name: &str) -> Result<String, NoMemory>
    ensures { IfOk result (λ copy. string_bytes copy ≡ name.now) }
{
    Ok(String::from_str(alloc, name)?)
}

impl Text {
    /// A copy of the name of an entry without a sibling's id, which takes memory only where the name is long.
    pub(crate) fn of(alloc: Global, name: &str) -> Result<Text, NoMemory>
        ensures copy { IfOk result (λ text. bytes_of text ≡ name.now) }
        ensures alone { IfOk result (λ text. sibling_of text ≡ None) }
        ensures short { length name.now ≤ SHORT_SIZE → IsOk result }
    {
        match Short::of(name) {
            Some(short) => Ok(Text::Short(short)),
            None => Ok(Text::Long(copied(alloc, name)?)),
        }
    }

    // A copy of the name of an entry with a sibling's id.
    fn twin(alloc: Global, name: &str, sibling: u64) -> Result<Text, NoMemory>
        ensures copy { IfOk result (λ text. bytes_of text ≡ name.now) }
        ensures sibling { IfOk result (λ text. sibling_of text ≡ Some sibling) }
    {
        let name = copied(alloc, name)?;
        if sibling >= FAR_ID {
            return Ok(Text::FarTwin(Box::new(alloc, FarTwin { name, sibling })?));
        }
        Ok(Text::Twin {
            upper: (sibling / (1 << 32)) as u16,
            lower: (sibling % (1 << 32)) as u32,
            name,
        })
    }

    /// A copy of the name of an entry, with the sibling's id that it has or hasn't.
    pub(crate) fn with(alloc: Global, name: &str, sibling: Option<u64>) -> Result<Text, NoMemory>
        ensures copy { IfOk result (λ text. bytes_of text ≡ name.now) }
        ensures sibling { IfOk result (λ text. sibling_of text ≡ sibling) }
    {
        match sibling {
            Some(sibling) => Text::twin(alloc, name, sibling),
            None => Text::of(alloc, name),
        }
    }

    /// The name.
    pub(crate) fn as_str(&self) -> &str
        ensures { result.now ≡ bytes_of self.now }
    {
        match self {
            Text::Short(short) => short.as_str(),
            Text::Long(long) => long.as_str(),
            Text::Twin {
                upper: _,
                lower: _,
                name,
            } => name.as_str(),
            Text::FarTwin(twin) => twin.name.as_str(),
        }
    }

    /// The sibling's id of its entry, where it has one.
    pub(crate) fn sibling(&self) -> Option<u64>
        ensures { result ≡ sibling_of self.now }
    {
        match self {
            Text::Short(_) => None,
            Text::Long(_) => None,
            Text::Twin {
                upper,
                lower,
                name: _,
            } => Some(u64::from(*upper) * (1 << 32) + u64::from(*lower)),
            Text::FarTwin(twin) => Some(twin.sibling),
        }
    }

    /// Whether it is the name of another, with the same sibling's id.
    pub(crate) fn is_same(&self, other: &Text) -> bool
        ensures name { IsTrue result → bytes_of self.now ≡ bytes_of other.now }
        ensures sibling { IsTrue result → sibling_of self.now ≡ sibling_of other.now }
    {
        self.as_str() == other.as_str() && self.sibling() == other.sibling()
    }
}

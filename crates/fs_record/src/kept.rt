// Names that are kept in memory.
ghost use Rattle.std.specs.Prelude.{◌≡◌, ◌≤◌, length, IsOk, IfOk};
ghost use Rattle.std.specs.String.{string_bytes};

use arrayvec::ArrayString;
use std::alloc::{AllocError, Global};
use std::marker::Model;

/// The greatest length of a name that is kept in place, in bytes.
const SHORT_SIZE: usize = 24;

// A name: in place where it is short, and on the heap where it is long.
#[derive(Drop)]
enum Held {
    Short(ArrayString<SHORT_SIZE>),
    Long(String),
}

/// A name that is kept: in place where it has at most 24 bytes, and on the heap where it has more. Contracts see it as the list of its bytes.
#[derive(Drop)]
pub struct KeptName {
    held: Held,
}

impl Model for KeptName {
    ghost use Rattle.std.specs.Prelude.{ℕ, List};
    ghost use Rattle.fs_record.specs.Held.{bytes_of};

    ghost Value = { List ℕ };

    ghost view = { λ a. bytes_of a.held };
}

// A name on the heap.
fn long(alloc: Global, name: &str) -> Result<KeptName, AllocError>
    ensures { IfOk result (λ kept. kept ≡ name.now) }
{
    let long = String::from_str(alloc, name)?;
    Ok(KeptName {
        held: Held::Long(long),
    })
}

impl KeptName {
    /// A copy of a name, which takes memory of its own only where the name is long.
    pub fn of(alloc: Global, name: &str) -> Result<KeptName, AllocError>
        ensures copy { IfOk result (λ kept. kept ≡ name.now) }
        ensures in_place { length name.now ≤ 24 → IsOk result }
    {
        match ArrayString::from(name) {
            Ok(short) => Ok(KeptName {
                held: Held::Short(short),
            }),
            Err(_) => long(alloc, name),
        }
    }

    /// The name.
    pub fn as_str(&self) -> &str
        ensures { result.now ≡ self.now }
    {
        match &self.held {
            Held::Short(short) => short.as_str(),
            Held::Long(long) => long.as_str(),
        }
    }
}

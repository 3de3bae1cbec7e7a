// How identifiers are shown.
ghost use Rattle.std.specs.Prelude.{◌≡◌, IfOk};
ghost use Rattle.std.specs.String.{string_bytes};
ghost use Rattle.cmd_lines.specs.Names.{uuid_text};

use std::alloc::{AllocError, Global};
use uuid::Uuid;

/// An identifier as it is shown, in lower case with hyphens.
#[tactic(auto, unfolding(crate::specs::Names::uuid_text))]
pub fn identifier(alloc: Global, uuid: [u8; 16]) -> Result<String, AllocError>
    ensures { IfOk result (λ text. string_bytes text ≡ uuid_text uuid) }
{
    let mut buffer = Uuid::encode_buffer();
    let uuid = Uuid::from_bytes(uuid).hyphenated();
    String::from_str(alloc, uuid.encode_lower(&mut buffer))
}

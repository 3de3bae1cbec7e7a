// The small volume, and a second volume with the file `hello.txt` of one block.
ghost use Rattle.std.specs.Prelude.{◌≡◌, IfOk, vec_len};

use super::common::Head;
use super::small;
use super::streams::{File, Files, volume_with};
use crate::plan::{NewRange, Plan};
use fs_name::Names;
use std::alloc::{AllocError, Global};

// The second volume, in which capital and small letters differ.
const SECOND: Head = Head {
    name: b"Second",
    uuid: [0x02, 0, 0, 0, 0, 0, 0, 0, 0, 0, 0, 0, 0, 0, 0, 0x02],
    names: Names::Normal,
};

// The root of its file-system tree, which no other object has.
const ROOT_OID: u64 = 1031;

// The block of its file, after those of both volumes.
const BLOCK: u64 = 63;

// Its file.
const HELLO: Files = Files {
    head: SECOND,
    oid: ROOT_OID,
    files: &[File {
        id: 16,
        name: "hello.txt",
        size: 5,
        extents: &[(0, 4096, BLOCK)],
    }],
    ranges: &[NewRange {
        first: BLOCK,
        length: 1,
        count: 1,
    }],
    contents: &[(BLOCK, b"hello")],
};

// A container with two volumes.
pub(super) fn two(alloc: Global) -> Result<Plan, AllocError>
    ensures blocks { IfOk result (λ plan. plan.blocks ≡ 256) }
    ensures two_volumes { IfOk result (λ plan. vec_len plan.volumes ≡ 2) }
{
    let mut plan = small::small(alloc)?;
    plan.volumes.push(volume_with(alloc, &HELLO)?)?;
    Ok(plan)
}

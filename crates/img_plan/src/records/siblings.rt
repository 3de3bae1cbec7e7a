// Sibling links and maps (Siblings, j_sibling_val_t and j_sibling_map_val_t).
ghost use Rattle.std.specs.Prelude.{◌≤◌, IfOk, length};
ghost use Rattle.img_plan.specs.Records.{IsLinkValue, IsLongKey, IsNumberValue, IsShortKey};

use super::keys::{Item, both, key, key_with, number};
use super::names::zeros_and_name;
use apfs_layout::key::{RECORD_LEN, SIBLING_LINK, SIBLING_MAP};
use apfs_layout::record::{LINK_NAME_LEN, LINK_PARENT};
use img_edit::put_u64;
use std::alloc::{AllocError, Global};

/// The record of one name of a file, by its sibling id: the directory that has the entry, and the name.
pub fn sibling_link(
    alloc: Global,
    file: u64,
    sibling: u64,
    directory: u64,
    name: &[u8],
) -> Result<Item, AllocError>
    requires { length name.now ≤ 1022 }
    ensures key { IfOk result (λ item. IsLongKey file 5 sibling item.0.items) }
    ensures value { IfOk result (λ item. IsLinkValue directory name.now item.1.items) }
{
    let key = key_with(alloc, file, SIBLING_LINK, sibling)?;
    let mut value = zeros_and_name(alloc, LINK_NAME_LEN, name)?;
    put_u64(&mut value, LINK_PARENT, directory);
    Ok((key, value))
}

/// The record that leads from a sibling id to its file.
pub fn sibling_map(alloc: Global, sibling: u64, file: u64) -> Result<Item, AllocError>
    ensures key { IfOk result (λ item. IsShortKey sibling 12 item.0.items) }
    ensures value { IfOk result (λ item. IsNumberValue file item.1.items) }
{
    both(
        key(alloc, sibling, SIBLING_MAP, RECORD_LEN),
        number(alloc, file),
    )
}

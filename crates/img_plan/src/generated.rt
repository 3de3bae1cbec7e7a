// A container with as many files as asked for, for measures of time and memory.
ghost use Rattle.std.specs.Prelude.{◌≡◌, ◌+◌, ◌*◌, ◌/◌, ◌<◌, ◌≤◌, IfOk, vec_len};
ghost use Rattle.img_plan.specs.Plans.{IsValid};

use crate::checked::checked;
use crate::files::{FileTree, ROOT};
use crate::packing::pack;
use crate::plan::{Leaf, NewRange, Plan, Version, VolPlan};
use crate::records::InodePlan;
use apfs_model::NoMemory;
use fs_name::Names;
use std::alloc::{AllocError, Global};

// The bytes of a block.
const BLOCK: u64 = 4096;

// The first id of a file or a directory.
const FIRST_ID: u64 = 16;

// How many files a directory has, and how many files stand between two snapshots.
const FILES_OF_A_DIRECTORY: u32 = 100;

const FILES_OF_A_SNAPSHOT: u32 = 10_000;

// The first leaf of a tree of several.
const FIRST_LEAF: u64 = 1031;

// The blocks before those of files, and the blocks that each file has room for.
const FIRST_BLOCK: u64 = 1024;

const BLOCKS_OF_A_FILE: u64 = 4;

// The identifier of the volume.
const UUID: [u8; 16] = [0x67, 0x65, 0x6e, 0, 0, 0, 0, 0, 0, 0, 0, 0, 0, 0, 0, 0x01];

// The id of a directory, made just before its first file.
fn directory_id(number: u32) -> u64
    requires { number ≤ 200 }
    ensures { result ≤ 20216 }
{
    FIRST_ID + u64::from((FILES_OF_A_DIRECTORY + 1) * number)
}

// The id of a file.
fn file_id(file: u32) -> u64
    requires { file < 20000 }
{
    let directory = directory_id(file / FILES_OF_A_DIRECTORY);
    directory + 1 + u64::from(file % FILES_OF_A_DIRECTORY)
}

// The length of a file in bytes, and in blocks.
fn bytes_of(file: u32) -> u64
    requires { file < 20000 }
    ensures { result < 9000 }
{
    u64::from(37 * file % 9000)
}

fn blocks_of(file: u32) -> u64
    requires { file < 20000 }
    ensures { result ≤ 3 }
{
    bytes_of(file).div_ceil(BLOCK)
}

// The first block of a file.
fn block_of(file: u32) -> u64 {
    FIRST_BLOCK + BLOCKS_OF_A_FILE * u64::from(file)
}

// What a file holds.
fn contents_of(alloc: Global, file: u32) -> Result<Vec<u8>, AllocError>
    requires { file < 20000 }
{
    let mut bytes = Vec::new(alloc);
    for at in 0..bytes_of(file) {
        bytes.push(((u64::from(file) + at) % 251) as u8)?;
    }
    Ok(bytes)
}

// Makes a directory.
fn add_directory(alloc: Global, tree: &mut FileTree, number: u32) -> Result<(), AllocError>
    requires { number ≤ 200 }
{
    let name = format!(in alloc; "d{number}")?;
    tree.add(
        alloc,
        InodePlan::directory(directory_id(number), ROOT),
        name.as_str(),
    )
}

// Makes a file; one without bytes has no stream.
fn add_file(alloc: Global, tree: &mut FileTree, file: u32) -> Result<(), AllocError>
    requires { file < 20000 }
{
    let name = format!(in alloc; "f{file}")?;
    let mut plan = InodePlan::file(file_id(file), directory_id(file / FILES_OF_A_DIRECTORY));
    if bytes_of(file) == 0 {
        return tree.add(alloc, plan, name.as_str());
    }
    plan.stream = Some(bytes_of(file));
    let id = plan.id;
    tree.add(alloc, plan, name.as_str())?;
    tree.stream(alloc, id, &[(0, BLOCK * blocks_of(file), block_of(file))])
}

// The leaves of a tree with the first so many files.
fn leaves_with(alloc: Global, files: u32) -> Result<Vec<Leaf>, AllocError>
    requires { files ≤ 20000 }
{
    let mut tree = FileTree::new(alloc, Names::Folded)?;
    for file in 0..files {
        if file % FILES_OF_A_DIRECTORY == 0 {
            add_directory(alloc, &mut tree, file / FILES_OF_A_DIRECTORY)?;
        }
        add_file(alloc, &mut tree, file)?;
    }
    let mut leaves = pack(alloc, tree.items(alloc)?, FIRST_LEAF)?;
    if leaves.len() == 1 {
        leaves[0].oid = img_edit::places::ROOT_OID;
    }
    Ok(leaves)
}

// The versions of the volume: one for each snapshot, and the live one where it has more files than the last of them.
fn versions_with(alloc: Global, files: u32) -> Result<Vec<Version>, AllocError>
    requires { files ≤ 20000 }
{
    let snapshots = files / FILES_OF_A_SNAPSHOT;
    let mut versions = Vec::new(alloc);
    for number in 1..=snapshots {
        let name = format!(in alloc; "s{number}")?;
        versions.push(Version {
            xid: u64::from(number),
            snapshot: Some(name.into_bytes()),
            leaves: leaves_with(alloc, FILES_OF_A_SNAPSHOT * number)?,
        })?;
    }
    if snapshots == 0 || files % FILES_OF_A_SNAPSHOT != 0 {
        versions.push(Version {
            xid: u64::from(snapshots) + 1,
            snapshot: None,
            leaves: leaves_with(alloc, files)?,
        })?;
    }
    Ok(versions)
}

// The volume with so many files.
fn volume_with(alloc: Global, files: u32) -> Result<VolPlan, AllocError>
    requires { files ≤ 20000 }
{
    let mut extents = Vec::new(alloc);
    let mut contents = Vec::new(alloc);
    for file in 0..files {
        if bytes_of(file) > 0 {
            extents.push(NewRange {
                first: block_of(file),
                length: blocks_of(file),
                count: 1,
            })?;
            contents.push((block_of(file), contents_of(alloc, file)?))?;
        }
    }
    Ok(VolPlan {
        name: b"Generated".to_vec(alloc)?,
        uuid: UUID,
        names: Names::Folded,
        versions: versions_with(alloc, files)?,
        extents,
        contents,
    })
}

/// The plan of a container with so many files, numbered from 0: 1,024 blocks and 4 for each file, and one volume in whose names
/// capital and small letters are the same. File i is named `f` and i, stands in the directory `d` and i / 100, and has
/// 37 i mod 9,000 bytes, of which byte j is i + j mod 251. After each 10,000 files a snapshot is taken, `s1` and so on, the k-th at
/// transaction k; the checkpoint's transaction is one more than the number of snapshots.
pub fn gen_plan(alloc: Global, files: u32) -> Result<Plan, NoMemory>
    requires { files ≤ 20000 }
    ensures valid { IfOk result IsValid }
    ensures blocks { IfOk result (λ plan. plan.blocks ≡ 1024 + 4 * files) }
    ensures volumes { IfOk result (λ plan. vec_len plan.volumes ≡ 1) }
    ensures xid { IfOk result (λ plan. plan.xid ≡ files / 10000 + 1) }
{
    let Ok(volume) = volume_with(alloc, files) else {
        return Err(NoMemory);
    };
    let Ok(volumes) = vec![in alloc; volume] else {
        return Err(NoMemory);
    };
    let plan = Plan {
        blocks: FIRST_BLOCK + BLOCKS_OF_A_FILE * u64::from(files),
        xid: u64::from(files / FILES_OF_A_SNAPSHOT) + 1,
        volumes,
        queued: Vec::new(alloc),
        jumpstart: Vec::new(alloc),
    };
    match checked(plan) {
        Ok(plan) => Ok(plan),
        Err(_) => Err(NoMemory),
    }
}

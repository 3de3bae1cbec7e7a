// What no clause says: that calls succeed.
ghost use Rattle.std.specs.Prelude.{◌<◌};

use blk_read::{read_block, read_new, read_sound};
use blk_source::{MemSource, SureSource};
use obj_base::{Expect, HeadFault, Site, Stop, Unsound};
use std::alloc::Global;

const FOUR_TO_SIX: &[u8] = &[4, 5, 6];

fn are_read(alloc: Global) -> Result<bool, Stop<()>> {
    let mut source = SureSource::new(vec![in alloc; 1, 2, 3, 4, 5, 6, 7]?);
    let mut into = [0u8; 2];
    read_block(&mut source, 1, &mut into)?;
    let bytes: Vec<u8> = read_new(alloc, &mut source, 1, 3)?;
    Ok(into == [3, 4] && bytes.as_slice() == FOUR_TO_SIX)
}

fn read_refused(alloc: Global) -> Result<Vec<u8>, Stop<()>> {
    let bytes = vec![in alloc; 1, 2]?;
    read_new(alloc, &mut MemSource::new(bytes, vec![in alloc; 1]?), 1, 1)
}

#[test]
fn blocks_are_read_by_number_and_a_failed_read_is_carried(rt: HostRuntime) {
    assert!(rt; are_read(rt.alloc()) == Ok(true));
    assert!(rt; read_refused(rt.alloc()).err() == Some(Stop::ReadFault));
}

// The header of the object map with oid 1 of transaction 5 in a block of 4,096 bytes that is otherwise zero. Its sum was
// worked out by another program.
const HEADER: [u8; 36] = [
    72, 187, 255, 63, 166, 68, 0, 128, 1, 0, 0, 0, 0, 0, 0, 0, 5, 0, 0, 0, 0, 0, 0, 0, 11, 0, 0,
    64, 0, 0, 0, 0, 0, 0, 0, 0,
];

const SITE: Site = Site {
    block_size: 4096,
    blocks: 2,
    max_xid: 5,
};

// The length of the object in a block of an image of two blocks, the second with that header, or why it is refused.
fn judge(
    alloc: Global,
    block: u64,
    kind: u16,
    oid: Option<u64>,
) -> Result<usize, Stop<Unsound<HeadFault>>>
    requires { block < 2 }
{
    let mut image = vec![in alloc; 0u8; 8192]?;
    image[4096..4132].copy_from_slice(&HEADER);
    let expect = Expect {
        kind,
        subtype: None,
        oid,
        max_xid: 5,
    };
    let object = read_sound(alloc, &mut SureSource::new(image), &SITE, block, &expect)?;
    Ok(object.len())
}

// Why an object isn't sound.
macro_rules! refused {
    ($block:expr, $why:expr) => {
        Err(Stop::Found(Unsound {
            block: $block,
            why: $why,
        }))
    };
}

// A block, the kind and the oid that are expected, and the object's length or why it is refused.
type Judged = (
    u64,
    u16,
    Option<u64>,
    Result<usize, Stop<Unsound<HeadFault>>>,
);

const JUDGED: &[Judged] = &[
    (1, 0xb, Some(1), Ok(4096)),
    (1, 0xb, None, Ok(4096)),
    (1, 0xc, Some(1), refused!(1, HeadFault::BadKind)),
    (1, 0xb, Some(2), refused!(1, HeadFault::BadOid)),
    (0, 0, Some(0), refused!(0, HeadFault::BadSum)),
];

#[test]
fn an_object_is_judged_where_it_stands(rt: HostRuntime) {
    for (block, kind, oid, wanted) in JUDGED {
        assert!(rt; *block < 2 && judge(rt.alloc(), *block, *kind, *oid) == *wanted);
    }
}

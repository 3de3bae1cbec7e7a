// What no clause says: that a copy is made, with ample memory.
use apfs_model::{Bytes, NoMemory};
use std::alloc::Global;

// Whether a copy of some bytes has them, and whether it is the same as a copy of others.
fn copied(alloc: Global, bytes: &[u8], others: &[u8]) -> Result<(bool, bool), NoMemory> {
    let copy = Bytes::from_slice(alloc, bytes)?;
    let other = Bytes::from_slice(alloc, others)?;
    Ok((copy.as_slice() == bytes, copy == other))
}

#[test]
fn bytes_are_a_copy(rt: HostRuntime) {
    let alloc = rt.alloc();
    assert!(rt;
        copied(alloc, b"name", b"name") == Ok((true, true))
            && copied(alloc, b"name", b"names") == Ok((true, false))
    );
}

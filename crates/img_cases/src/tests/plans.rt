// Records that no sample has, against the format's tables.
use img_plan::QueueEntry;
use img_plan::records::{attribute, file_extent, queue_record, rank, stream_attribute};
use obj_base::u64_at;
use std::test::Fail;

// The number of 64 bits at a place, where the bytes have it.
fn number(bytes: &[u8], at: usize) -> Option<u64> {
    let part = bytes.get(at..at.checked_add(8)?)?;
    if part.len() == 8 {
        Some(u64_at(part, 0))
    } else {
        None
    }
}

#[test]
fn attributes_have_their_fields(rt: HostRuntime) -> Result<(), Fail> {
    let (key, value) = attribute(rt.alloc(), 16, b"x", b"abc")?;
    // id and kind, the length of the name with its zero, and the name; flags, length and contents
    assert!(rt;
        key.as_slice() == b"\x10\0\0\0\0\0\0\x40\x02\0x\0".as_slice()
            && value.as_slice() == b"\x02\0\x03\0abc".as_slice()
    );
    let (_, value) = stream_attribute(rt.alloc(), 16, b"x", 20, 5)?;
    assert!(rt;
        value.len() == 52
            && number(&value, 0) == Some(0x0014_0030_0001)
            && number(&value, 12) == Some(5)
    );
    Ok(())
}

#[test]
fn a_queued_range_has_its_fields(rt: HostRuntime) -> Result<(), Fail> {
    let entry = QueueEntry {
        xid: 3,
        paddr: 60,
        length: 2,
    };
    let (key, value) = queue_record(rt.alloc(), &entry)?;
    assert!(rt;
        number(&key, 0) == Some(3) && number(&key, 8) == Some(60) && number(&value, 0) == Some(2)
    );
    Ok(())
}

#[test]
fn records_stand_by_their_rank(rt: HostRuntime) -> Result<(), Fail> {
    let (key, _) = file_extent(rt.alloc(), 16, 4096, 4096, 57)?;
    assert!(rt; rank(&key) == (16, 8, 4096) && rank(b"short") == (0, 0, 0));
    Ok(())
}

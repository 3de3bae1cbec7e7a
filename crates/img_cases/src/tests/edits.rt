// Edits of a small image, against sums that are worked out by hand.
use img_edit::{edit, reseal, reseal_block, write};
use obj_base::u64_at;
use std::test::Fail;

// The first word that is summed is 1, and all others are 0.
const SUM: u64 = 0x0000_03fe_ffff_fc00;

#[test]
fn an_edited_block_is_whole_once_it_is_resealed(rt: HostRuntime) -> Result<(), Fail> {
    let mut block = vec![in rt.alloc(); 0u8; 4096]?;
    block[8] = 1;
    reseal(&mut block);
    assert!(rt; u64_at(&block, 0) == SUM && u64_at(&block, 8) == 1);
    Ok(())
}

#[test]
fn a_block_of_an_image_is_edited(rt: HostRuntime) -> Result<(), Fail> {
    let mut image = vec![in rt.alloc(); 0u8; 3 * 4096]?;
    assert!(rt;
        edit(&mut image, 4096, 1, 8, &[1])
            && u64_at(&image, 4096) == SUM
            && u64_at(&image, 4104) == 1
    );
    Ok(())
}

#[test]
fn what_is_written_is_summed_once_it_is_resealed(rt: HostRuntime) -> Result<(), Fail> {
    let mut image = vec![in rt.alloc(); 0u8; 3 * 4096]?;
    assert!(rt; write(&mut image, 4096, 2, 8, &[1]) && u64_at(&image, 8192) == 0);
    assert!(rt; reseal_block(&mut image, 4096, 2) && u64_at(&image, 8192) == SUM);
    Ok(())
}

// Blocks that aren't there, and bytes that leave a block: the block, and the place in it.
const OUTSIDE: [(usize, usize); 4] = [(3, 0), (1, 4096), (1, 4095), (usize::MAX, 8)];

#[test]
fn edits_outside_of_a_block_are_refused(rt: HostRuntime) -> Result<(), Fail> {
    let mut image = vec![in rt.alloc(); 0u8; 3 * 4096]?;
    for (block, at) in OUTSIDE {
        assert!(rt;
            !edit(&mut image, 4096, block, at, &[1, 1]),
            "block {block}"
        );
    }
    Ok(())
}

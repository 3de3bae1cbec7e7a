// A check after a check, over one cache of the whole container.
use apfs_check::check;
use blk_cache::Cached;
use blk_source::MemSource;
use img_make::{Sample, image};
use std::test::Fail;
use tree_rules::Profile;

#[test]
fn a_second_check_reads_nothing(rt: HostRuntime) -> Result<(), Fail> {
    let alloc = rt.alloc();
    let two_snapshots = image(alloc, &(Sample::V, &[], &[]), &[])?;
    let source = MemSource::new(two_snapshots, Vec::new(alloc));
    let mut cached = Cached::new(alloc, source, 4096, 256).or(Err("no memory"))?;
    assert!(rt; check(alloc, &mut cached, Profile::Plain).is_ok());
    let reads = cached.inner().read_count();
    assert!(rt;
        (reads > 0, cached.lost()) == (true, 0)
            && check(alloc, &mut cached, Profile::Plain).is_ok()
            && (cached.inner().read_count(), cached.lost()) == (reads, 0)
    );
    Ok(())
}

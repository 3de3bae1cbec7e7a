// The accounts of made containers: how many objects are named and how many blocks are owned, or what is wrong.
ghost use Rattle.std.specs.Prelude.{◌≡◌, [], IfOk};
ghost use Rattle.apfs_model.specs.Lists.{In};
ghost use Rattle.obj_base.specs.Site.{IsSiteFor};
ghost use Rattle.nx_ring.specs.Checkpoint.{site_of};
ghost use Rattle.nx_ring.specs.Features.{container_features};
ghost use Rattle.vol_view.specs.Placed.{IsHead};
ghost use Rattle.vol_view.specs.declared.head.VolHead.{VolHead};

mod blocks;
mod features;
mod objects;
mod space;
mod vast;

use blk_source::{BlockSource, MemSource};
use img_make::{Base, Change, Sample, grouped, image, table};
use nx_ring::{Checkpoint, newest};
use obj_base::Stop;
use reach_rules::ReachFault;
use reach_sweep::account;
use space_map::Space;
use std::alloc::Global;
use std::process::Abort;
use std::test::Fail;
use vol_view::{VolHead, Volume, heads, load};

// How many objects are named, and how many blocks are owned.
#[derive(Clone, Copy, PartialEq, Eq)]
struct Numbers {
    objects: u64,
    owned: u64,
}

// Those of the small container.
const SMALL_NUMBERS: Numbers = Numbers {
    objects: 14,
    owned: 57,
};

// What an account comes to.
type Told = Result<Numbers, Stop<ReachFault>>;

// A case: what an image is made of, its changes, and what its account comes to.
type Case = (Base, &'static [Change], Result<Numbers, ReachFault>);

// An account that was made, and how often the source was read before it and after it.
#[derive(Drop)]
struct Account {
    told: Told,
    before: u64,
    after: u64,
}

// The volumes of a container, in the order of its heads.
fn load_all<S: BlockSource>(
    alloc: Global,
    src: &mut S,
    cp: &Checkpoint,
    heads: &[VolHead],
) -> Result<Vec<Volume>, Fail>
    requires site { IsSiteFor (site_of cp.now) (S.bytes_len src.old) }
    requires heads { (head : VolHead) → In head heads.now → IsHead (S.bytes src.old) cp.now head }
    ensures { S.bytes_len src.new ≡ S.bytes_len src.old }
{
    let mut volumes = Vec::new(alloc);
    'each: for head in heads {
        match load(alloc, src, cp, head) {
            Ok(volume) => volumes.push(volume)?,
            Err(_) => return Err(Fail::from("no volume")),
        }
    }
    Ok(volumes)
}

// The newest checkpoint of a container, with its volumes.
#[derive(Drop)]
struct Opened {
    cp: Checkpoint,
    volumes: Vec<Volume>,
}

fn open<S: BlockSource>(alloc: Global, src: &mut S) -> Result<Opened, Fail>
    ensures site { IfOk result (λ at. IsSiteFor (site_of at.cp) (S.bytes_len src.new)) }
    ensures plain { IfOk result (λ at. container_features at.cp.nx ≡ []) }
{
    let Ok(cp) = newest(alloc, src) else {
        return Err(Fail::from("no checkpoint"));
    };
    let Ok(found) = heads(alloc, src, &cp) else {
        return Err(Fail::from("no heads"));
    };
    let volumes = load_all(alloc, src, &cp, &found)?;
    Ok(Opened { cp, volumes })
}

// The account of a container that was opened.
fn account_of<S: BlockSource>(alloc: Global, src: &mut S, at: &Opened) -> Told
    requires site { IsSiteFor (site_of at.now.cp) (S.bytes_len src.old) }
    requires plain { container_features at.now.cp.nx ≡ [] }
{
    match account(alloc, src, &at.cp, &at.volumes) {
        Ok(tally) => Ok(Numbers {
            objects: tally.objects(),
            owned: tally.owned(),
        }),
        Err(stop) => Err(stop),
    }
}

// The account of an image whose reads of some numbers fail.
fn told(alloc: Global, image: Vec<u8>, fails: Vec<u64>) -> Result<Account, Fail> {
    let mut src = MemSource::new(image, fails);
    let at = open(alloc, &mut src)?;
    let before = src.read_count();
    let told = account_of(alloc, &mut src, &at);
    Ok(Account {
        told,
        before,
        after: src.read_count(),
    })
}

// The account of an image.
fn sum(alloc: Global, image: Vec<u8>) -> Result<Told, Fail> {
    let account = told(alloc, image, Vec::new(alloc))?;
    Ok(account.told)
}

// Whether each image of a table comes to what is said of it.
fn assert_cases(rt: &impl Abort, alloc: Global, cases: &[Case]) -> Result<(), Fail> {
    for (base, changes, want) in cases {
        let want = match *want {
            Ok(numbers) => Ok(numbers),
            Err(fault) => Err(Stop::Found(fault)),
        };
        let found = sum(alloc, image(alloc, base, changes)?)?;
        assert!(rt; found == want);
    }
    Ok(())
}

// How many blocks a container has, and how many of them the space manager counts as free.
fn space_of(alloc: Global, image: Vec<u8>) -> Result<(u64, u64), Fail> {
    let mut src = MemSource::new(image, Vec::new(alloc));
    let Ok(cp) = newest(alloc, &mut src) else {
        return Err(Fail::from("no checkpoint"));
    };
    match Space::load(alloc, &mut src, &cp) {
        Ok(space) => Ok((space.site().blocks, space.free())),
        Err(_) => Err(Fail::from("no space")),
    }
}

// A sample as it is.
fn plain(alloc: Global, which: Sample) -> Result<Vec<u8>, Fail> {
    image(alloc, &(which, &[], &[]), &[])
}

// A sample, how many objects it names, and how many blocks are owned.
const SAMPLES: &[(Sample, u64, u64)] = table! {
    Sample::S, 14, 57;
    Sample::H, 14, 58;
    Sample::L, 14, 57;
    Sample::P, 14, 58;
    Sample::C, 14, 58;
    Sample::V, 22, 65;
    Sample::V2, 34, 77;
    Sample::J, 15, 60;
    Sample::T, 20, 64;
};

#[test]
fn numbers_of_samples(rt: HostRuntime) -> Result<(), Fail> {
    let alloc = rt.alloc();
    for &(which, objects, owned) in SAMPLES {
        let found = sum(alloc, plain(alloc, which)?)?;
        assert!(rt;
            found == Ok(Numbers { objects, owned }),
            "{objects} objects, {owned} blocks"
        );
    }
    Ok(())
}

// Whether the blocks of an image that are owned and those that are free are all of its blocks.
fn are_all(alloc: Global, image: Vec<u8>) -> Result<bool, Fail> {
    let (blocks, free) = space_of(alloc, image.to_vec(alloc)?)?;
    let Ok(numbers) = sum(alloc, image)? else {
        return Err(Fail::from("no account"));
    };
    Ok(numbers.owned.saturating_add(free) == blocks)
}

// Samples whose blocks are counted.
const SOME_SAMPLES: [Sample; 4] = [Sample::L, Sample::P, Sample::J, Sample::T];

#[test]
fn owned_and_free_are_all_blocks(rt: HostRuntime) -> Result<(), Fail> {
    let alloc = rt.alloc();
    for which in SOME_SAMPLES {
        assert!(rt; are_all(alloc, plain(alloc, which)?)?, "{which:?}");
    }
    Ok(())
}

#[test]
fn owned_and_free_with_address_blocks(rt: HostRuntime) -> Result<(), Fail> {
    let alloc = rt.alloc();
    assert!(rt; are_all(alloc, grouped(alloc, &[])?)?);
    Ok(())
}

// What an account of a container of one chunk reads once: the roots of the two free queues, the chunk-info block, the container's
// object map and the root of its tree, and the bitmaps of the chunk and of the pool.
const ONCE: u64 = 7;

// A sample, and what its account reads: beside those, the nodes of files and the roots of extent references. The superblocks and the nodes
// of a volume's map and of its snapshot metadata, which were loaded with the volume, aren't read again.
const READS: &[(Sample, u64)] = table! {
    Sample::S, ONCE + 1 + 1;
    Sample::V, ONCE + 4 + 3;
    Sample::V2, ONCE + 4 + 9;
    Sample::T, ONCE + 2 + 2;
};

// How many reads the account of an image takes.
fn reads_of(alloc: Global, image: Vec<u8>) -> Result<u64, Fail> {
    let account = told(alloc, image, Vec::new(alloc))?;
    if account.told.is_err() {
        return Err(Fail::from("no account"));
    }
    Ok(account.after.saturating_sub(account.before))
}

#[test]
fn reads(rt: HostRuntime) -> Result<(), Fail> {
    let alloc = rt.alloc();
    for &(which, wanted) in READS {
        assert!(rt;
            reads_of(alloc, plain(alloc, which)?)? == wanted,
            "{wanted} reads"
        );
    }
    Ok(())
}

// Whether an account of which the read of a number fails is stopped by that.
fn is_stopped(alloc: Global, number: u64) -> Result<bool, Fail> {
    let fails = vec![in alloc; number]?;
    let account = told(alloc, plain(alloc, Sample::S)?, fails)?;
    Ok(account.told == Err(Stop::ReadFault))
}

#[test]
fn each_read_that_fails_is_told(rt: HostRuntime) -> Result<(), Fail> {
    let alloc = rt.alloc();
    let whole = told(alloc, plain(alloc, Sample::S)?, Vec::new(alloc))?;
    assert!(rt; whole.before < whole.after);
    for number in whole.before..whole.after {
        assert!(rt; is_stopped(alloc, number + 1)?, "{number}");
    }
    Ok(())
}

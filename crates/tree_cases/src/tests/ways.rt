// From which directory parents never lead to the root.
use crate::tests::cases::{Base, D, F};
use crate::tests::opened::{open, refusal};
use crate::tests::trees::{Count, Id, In, Rec, Top, image_of};
use img_make::table;
use parent_chain::first_unreached;
use std::alloc::{AllocError, Global};
use std::test::Fail;
use view_facts::view_facts;

// An inode: its id, that of its parent, and its mode.
type Place = (u64, u64, u16);

// A name, the inodes beside those of the root and the private directory, and the directory that is found.
type Way = (&'static str, &'static [Place], Option<u64>);

const WAYS: &[Way] = table! {
    "no_directory", &[], None;
    "a_file_in_itself", &[(16, 16, F)], None;
    "in_the_root", &[(16, 2, D)], None;
    "below_16_without_an_inode", &[(16, 9, D)], None;
    "two_below_the_root", &[(16, 17, D), (17, 2, D)], None;
    "through_a_file", &[(16, 17, D), (17, 2, F)], None;
    "two_ways_that_join", &[(16, 18, D), (17, 18, D), (18, 19, D), (19, 2, D)], None;
    "in_itself", &[(16, 16, D)], Some(16);
    "in_no_inode", &[(16, 99, D)], Some(16);
    "ring_of_two", &[(16, 17, D), (17, 16, D)], Some(16);
    "into_a_ring", &[(16, 2, D), (17, 18, D), (18, 19, D), (19, 18, D)], Some(17);
    "ring_of_files", &[(16, 17, D), (17, 18, F), (18, 17, F)], Some(16);
    "through_a_file_to_no_inode", &[(16, 17, D), (17, 99, F)], Some(16);
    "after_some_that_lead", &[(16, 17, D), (17, 2, D), (18, 16, D), (19, 20, D), (20, 19, F)], Some(19);
};

// The records of inodes. Directories have no children, and files one link.
fn records(alloc: Global, places: &[Place]) -> Result<Vec<Rec>, AllocError> {
    let mut records = Vec::new(alloc);
    for (id, parent, mode) in places {
        let number = Count(u32::from(*mode == F));
        records.push(Rec::Inode(Id(*id), In(*parent), *mode, number))?;
    }
    Ok(records)
}

// The directory that is found among these inodes.
fn unreached(alloc: Global, places: &[Place]) -> Result<Option<u64>, Fail> {
    let image = image_of(alloc, Top::Root(0), Base::Alone, &records(alloc, places)?)?;
    let mut at = open(alloc, image, 0)?;
    match view_facts(alloc, &mut at.src, &at.volume, &at.view, &at.site) {
        Ok(gathered) => Ok(first_unreached(alloc, &gathered.facts)?.map(|f| f.id())),
        Err(stop) => Err(refusal(stop)),
    }
}

#[test]
fn ways_lead_as_said(rt: HostRuntime) -> Result<(), Fail> {
    for (name, places, expected) in WAYS {
        let found = unreached(rt.alloc(), places)?;
        assert!(rt; found == *expected, "{name}");
    }
    Ok(())
}

// Thirty directories, each in the next one, and the last one in this.
fn chain(alloc: Global, last: u64) -> Result<Vec<Place>, AllocError> {
    let mut places = Vec::new(alloc);
    for id in 16..45 {
        places.push((id, id + 1, D))?;
    }
    places.push((45, last, D))?;
    Ok(places)
}

// In which directory the last one is, and the directory that is found.
const ENDS: &[(u64, Option<u64>)] = table! {
    2, None; 45, Some(16); 40, Some(16); 46, Some(16);
};

#[test]
fn a_long_way_is_followed_to_its_end(rt: HostRuntime) -> Result<(), Fail> {
    let alloc = rt.alloc();
    for (last, expected) in ENDS {
        let found = unreached(alloc, &chain(alloc, *last)?)?;
        assert!(rt; found == *expected, "{last}");
    }
    Ok(())
}

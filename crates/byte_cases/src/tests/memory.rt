// That calls of a folder in memory succeed.
use apfs_model::WriteFailed;
use blk_folder::{Folder, Given, MemFolder};

// Puts a file in two pieces.
fn put(folder: &mut MemFolder, path: &str, first: &[u8], second: &[u8]) -> Result<(), WriteFailed> {
    folder.start_file(path)?;
    folder.append(first)?;
    folder.append(second)
}

// Starts a file, and says whether its only piece is refused.
fn refuses(folder: &mut MemFolder, path: &str, piece: &[u8]) -> bool {
    folder.start_file(path).is_ok() && folder.append(piece).is_err()
}

// Whether a folder has some items: each a path, and the bytes of a file.
fn has(folder: &MemFolder, items: &[(&str, Option<&[u8]>)]) -> bool {
    for i in 0..folder.len() {
        if items.get(i) != Some(&(folder.path(i), folder.bytes(i))) {
            return false;
        }
    }
    folder.len() == items.len()
}

const FILLED: &[(&str, Option<&[u8]>)] = &[("d", None), ("d/f", Some(b"hello")), ("e", Some(b""))];

// Whether all is put into a folder.
fn puts_all(folder: &mut MemFolder) -> bool {
    folder.make_dir("d").is_ok()
        && put(folder, "d/f", b"hel", b"lo").is_ok()
        && folder.start_file("e").is_ok()
        && folder.fault_count() == 0
        && has(folder, FILLED)
}

#[test]
fn a_folder_in_memory_has_what_was_put(rt: HostRuntime) {
    let mut folder = MemFolder::new(rt.alloc(), 3, 10, Vec::new(rt.alloc()))
        .ok()
        .expect(&rt, "memory");
    assert!(rt; puts_all(&mut folder));
    drop(folder);
}

const REFUSED: &[(&str, Option<&[u8]>)] = &[("f", Some(b"")), ("g", Some(b""))];

// Whether a folder refuses four of six calls.
fn refuses_four(folder: &mut MemFolder) -> bool {
    refuses(folder, "f", b"a")
        && folder.make_dir("longer").is_err()
        && refuses(folder, "g", b"hello")
        && folder.make_dir("d").is_err()
        && folder.fault_count() == 4
        && has(folder, REFUSED)
}

#[test]
fn a_folder_in_memory_refuses_by_number_and_by_room(rt: HostRuntime) {
    let alloc = rt.alloc();
    let fails = vec![in alloc; 2].ok().expect(&rt, "memory");
    let mut folder = MemFolder::new(alloc, 2, 6, fails)
        .ok()
        .expect(&rt, "memory");
    assert!(rt; refuses_four(&mut folder));
    drop(folder);
}

#[test]
fn a_folder_is_given_or_not(rt: HostRuntime) {
    let given = [Given::Nothing, Given::Into(1u8)];
    for (i, one) in given.iter().enumerate() {
        assert!(rt; matches!(one, Given::Into(_)) == (i == 1));
    }
}

// A reaper (Reaper, nx_reaper_phys_t), by offset.

/// The next id of a reap list's entry, which isn't read.
pub const REAPER_NEXT_ID: usize = 32;

pub const REAPER_HEAD: usize = 48;

pub const REAPER_FLAGS: usize = 64;

/// The length of the buffer after the fields, which isn't read, and where it starts.
pub const REAPER_BUFFER_SIZE: usize = 108;

pub const REAPER_BUFFER: usize = 112;

// A reap list (Reaper, nx_reap_list_phys_t), by offset.

pub const LIST_NEXT: usize = 32;

pub const LIST_COUNT: usize = 48;

// The limits of a table. pid_max of proc(5) is one above the greatest id.

/// The most threads, dead ones too.
pub const MOST_THREADS: usize = 1024;

/// The most threads of one group.
pub const MOST_MEMBERS: usize = 64;

/// The greatest id of a thread or a group.
pub const GREATEST_ID: u32 = 4_194_303;

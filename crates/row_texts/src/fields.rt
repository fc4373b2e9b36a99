// The fields of structures: their names, where they stand, and how many bytes they have.

/// How many bytes a dinode's fields take, at the head of its block.
pub(crate) const DINODE_LENGTH: usize = 232;

pub(crate) type Field = (&'static str, usize, usize);

static HEADER: [Field; 5] = [
    ("magic", 0, 4),
    ("kind", 4, 4),
    ("pad", 8, 8),
    ("format", 16, 4),
    ("jid", 20, 4),
];

static SUPERBLOCK: [Field; 11] = [
    ("fs_format", 24, 4),
    ("multihost_format", 28, 4),
    ("bsize", 36, 4),
    ("bsize_shift", 40, 4),
    ("master_number", 48, 8),
    ("master", 56, 8),
    ("root_number", 80, 8),
    ("root", 88, 8),
    ("lockproto", 96, 64),
    ("locktable", 160, 64),
    ("uuid", 256, 16),
];

static GROUP: [Field; 9] = [
    ("flags", 24, 4),
    ("free", 28, 4),
    ("dinodes", 32, 4),
    ("skip", 36, 4),
    ("igeneration", 40, 8),
    ("data0", 48, 8),
    ("data", 56, 4),
    ("bitbytes", 60, 4),
    ("crc", 64, 4),
];

static DINODE: [Field; 23] = [
    ("number", 24, 8),
    ("address", 32, 8),
    ("mode", 40, 4),
    ("uid", 44, 4),
    ("gid", 48, 4),
    ("nlink", 52, 4),
    ("size", 56, 8),
    ("blocks", 64, 8),
    ("atime", 72, 8),
    ("mtime", 80, 8),
    ("ctime", 88, 8),
    ("major", 96, 4),
    ("minor", 100, 4),
    ("goal_meta", 104, 8),
    ("goal_data", 112, 8),
    ("generation", 120, 8),
    ("flags", 128, 4),
    ("payload_format", 132, 4),
    ("height", 138, 2),
    ("depth", 146, 2),
    ("entries", 148, 4),
    ("eattr", 168, 8),
    ("content", DINODE_LENGTH, 0),
];

static LEAF: [Field; 4] = [
    ("depth", 24, 2),
    ("entries", 26, 2),
    ("dirent_format", 28, 4),
    ("next", 32, 8),
];

static LOG_HEADER: [Field; 15] = [
    ("sequence", 24, 8),
    ("flags", 32, 4),
    ("tail", 36, 4),
    ("blkno", 40, 4),
    ("hash", 44, 4),
    ("crc", 48, 4),
    ("nsec", 52, 4),
    ("sec", 56, 8),
    ("addr", 64, 8),
    ("jinode", 72, 8),
    ("statfs_addr", 80, 8),
    ("quota_addr", 88, 8),
    ("local_total", 96, 8),
    ("local_free", 104, 8),
    ("local_dinodes", 112, 8),
];

static RECORD: [Field; 8] = [
    ("number", 0, 8),
    ("address", 8, 8),
    ("hash", 16, 4),
    ("rec_len", 20, 2),
    ("name_len", 22, 2),
    ("kind", 24, 2),
    ("rahead", 26, 2),
    ("name", 40, 0),
];

static ENTRY: [Field; 5] = [
    ("addr", 0, 8),
    ("length", 8, 4),
    ("data0", 16, 8),
    ("data", 24, 4),
    ("bitbytes", 28, 4),
];

fn find(fields: &[Field], word: &str) -> Option<(usize, usize)> {
    for (name, at, width) in fields {
        if *name == word {
            return Some((*at, *width));
        }
    }
    None
}

/// Where a field of a structure of this kind stands, and how many bytes it has.
pub(crate) fn field_of(kind: Option<u64>, word: &str) -> Option<(usize, usize)> {
    if let Some(found) = find(&HEADER, word) {
        return Some(found);
    }
    match kind? {
        1 => find(&SUPERBLOCK, word),
        2 => find(&GROUP, word),
        4 => find(&DINODE, word),
        6 => find(&LEAF, word),
        8 => find(&LOG_HEADER, word),
        _ => None,
    }
}

/// The same of a directory's record.
pub(crate) fn record_field(word: &str) -> Option<(usize, usize)> {
    find(&RECORD, word)
}

/// The same of an entry of the list of groups.
pub(crate) fn entry_field(word: &str) -> Option<(usize, usize)> {
    find(&ENTRY, word)
}

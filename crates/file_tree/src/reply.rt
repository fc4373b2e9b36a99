ghost use Rattle.std.specs.Prelude.{◌≡◌, IfOk};

use crate::{Content, NameList, NoMemory};

/// What stands at a path.
#[derive(Clone, Copy, Debug, PartialEq, Eq)]
pub enum Kind {
    File,
    Dir,
}

/// What a call answers.
#[derive(Drop)]
pub enum Reply {
    Ok,
    /// The bytes that were read.
    Bytes(Content),
    /// A file and its size in bytes, or a directory and its count of names.
    Stat(Kind, u64),
    /// A directory's names in rising byte order.
    Names(NameList),
    /// A name on the way is absent.
    NotFound,
    /// A name was asked of a file, or a file stands where a directory is wanted.
    NotDir,
    /// A directory stands where a file is wanted.
    IsDir,
    /// The name is there already.
    Exists,
    /// The directory has names.
    NotEmpty,
    /// A directory can't be moved into itself, nor the root moved or removed.
    Inside,
    /// The file would have more than 67,108,864 bytes.
    TooBig,
    /// There are too few free blocks.
    NoSpace,
}

impl Reply {
    /// An equal reply. It costs a copy of the content or the names.
    pub fn copy(&self) -> Result<Reply, NoMemory>
        ensures { IfOk result (λ reply. reply ≡ self.now) }
    {
        match self {
            Reply::Ok => Ok(Reply::Ok),
            Reply::Bytes(content) => Ok(Reply::Bytes(content.copy()?)),
            Reply::Stat(kind, size) => Ok(Reply::Stat(*kind, *size)),
            Reply::Names(names) => Ok(Reply::Names(names.copy()?)),
            Reply::NotFound => Ok(Reply::NotFound),
            Reply::NotDir => Ok(Reply::NotDir),
            Reply::IsDir => Ok(Reply::IsDir),
            Reply::Exists => Ok(Reply::Exists),
            Reply::NotEmpty => Ok(Reply::NotEmpty),
            Reply::Inside => Ok(Reply::Inside),
            Reply::TooBig => Ok(Reply::TooBig),
            Reply::NoSpace => Ok(Reply::NoSpace),
        }
    }
}

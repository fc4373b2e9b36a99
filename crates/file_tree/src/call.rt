ghost use Rattle.std.specs.Prelude.{◌≡◌, IfOk};

use crate::{Content, NoMemory, Path};

/// A call on the tree. Offsets and sizes are in bytes, and so is the count of a read.
#[derive(Drop)]
pub enum Call {
    /// Makes an empty file.
    Create(Path),
    /// Makes an empty directory.
    Mkdir(Path),
    /// Removes a file.
    Unlink(Path),
    /// Removes an empty directory.
    Rmdir(Path),
    /// Reads from an offset on, at most so many bytes.
    Read(Path, u64, u32),
    /// Reads the same, past the node's own copies.
    Dread(Path, u64, u32),
    /// Writes at an offset.
    Write(Path, u64, Content),
    /// Sets a file's size.
    Truncate(Path, u64),
    /// Asks for the kind and the size.
    Stat(Path),
    /// Lists a directory's names.
    List(Path),
    /// Moves the first path to the second.
    Rename(Path, Path),
    /// Waits until all answered changes are on the disk.
    Sync,
}

impl Call {
    /// An equal call. It costs a copy of the path and the content.
    pub fn copy(&self) -> Result<Call, NoMemory>
        ensures { IfOk result (λ call. call ≡ self.now) }
    {
        match self {
            Call::Create(path) => Ok(Call::Create(path.copy()?)),
            Call::Mkdir(path) => Ok(Call::Mkdir(path.copy()?)),
            Call::Unlink(path) => Ok(Call::Unlink(path.copy()?)),
            Call::Rmdir(path) => Ok(Call::Rmdir(path.copy()?)),
            Call::Read(path, at, count) => Ok(Call::Read(path.copy()?, *at, *count)),
            Call::Dread(path, at, count) => Ok(Call::Dread(path.copy()?, *at, *count)),
            Call::Write(path, at, content) => {
                Ok(Call::Write(path.copy()?, *at, content.copy()?))
            }
            Call::Truncate(path, size) => Ok(Call::Truncate(path.copy()?, *size)),
            Call::Stat(path) => Ok(Call::Stat(path.copy()?)),
            Call::List(path) => Ok(Call::List(path.copy()?)),
            Call::Rename(from, to) => Ok(Call::Rename(from.copy()?, to.copy()?)),
            Call::Sync => Ok(Call::Sync),
        }
    }
}

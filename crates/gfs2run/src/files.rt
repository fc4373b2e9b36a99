// The files that the words name.
use std::fs::{File, Metadata, OpenFile, OpenOptions};
use std::io::{self, Error, ErrorKind};
use std::os::unix::fs::{FileTypeExt, MetadataExt};
use std::rt::Files;

/// What the system tells of the image, which is a regular file or a block device. Nothing else is opened, so nobody waits at
/// a pipe.
pub fn image_at<F: Files>(rt: &F, name: &str) -> io::Result<Metadata> {
    let about = rt.metadata(name)?;
    if about.is_file() || about.file_type().is_block_device() {
        Ok(about)
    } else {
        Err(Error::from(ErrorKind::InvalidInput))
    }
}

// Whether both are one file, or one block device under two names.
fn are_same(one: &Metadata, other: &Metadata) -> bool {
    let are_devices = one.file_type().is_block_device() && other.file_type().is_block_device();
    (one.dev() == other.dev() && one.ino() == other.ino())
        || (are_devices && one.rdev() == other.rdev())
}

/// Opens the trace and empties it, unless it is the image, which stays as it is.
pub fn open_trace<F: Files<File = File>>(rt: &F, name: &str, image: &Metadata) -> io::Result<File> {
    let file = OpenOptions::new().write(true).create(true).open(rt, name)?;
    let about = file.metadata()?;
    if are_same(&about, image) {
        return Err(Error::from(ErrorKind::InvalidInput));
    }
    if about.len() > 0 {
        file.set_len(0)?;
    }
    Ok(file)
}

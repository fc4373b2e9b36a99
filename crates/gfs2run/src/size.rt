ghost use Rattle.std.specs.Prelude.{◌≡◌, ℕ, Ok, Some, IfOk, IfSome, map, string_bytes};
ghost use Rattle.gfs2run.specs.Size.{size_written as the_size_written, first_size as the_first_size, size_given as the_size_given};
ghost use Rattle.gfs2_layout.specs.Device.{IsBlockSize};

use std::fs::{File, Files};
use std::io::{self, ErrorKind, Read, Seek, SeekFrom};

// Where the superblock has its block size: 36 bytes behind the byte 65,536.
const FIELD: u64 = 65_572;

// One of the four block sizes, or 4096.
fn one_of_four(size: u32) -> u32
    ensures some { IsBlockSize result }
    ensures same { IsBlockSize size → result ≡ size }
{
    match size {
        512 => 512,
        1024 => 1024,
        2048 => 2048,
        _ => 4096,
    }
}

// The block size that a word writes.
fn size_written(word: &[u8]) -> Option<u32>
    ensures exact { result ≡ the_size_written word.now }
    ensures some { IfSome result IsBlockSize }
{
    if word == b"512".as_slice() {
        return Some(512);
    }
    if word == b"1024".as_slice() {
        return Some(1024);
    }
    if word == b"2048".as_slice() {
        return Some(2048);
    }
    if word == b"4096".as_slice() {
        return Some(4096);
    }
    None
}

// The block size that the first of these words writes.
fn first_size(words: &[String]) -> Option<u32>
    ensures exact { result ≡ the_first_size (map string_bytes words.now) }
    ensures some { IfSome result IsBlockSize }
{
    size_written(words.first()?.as_bytes())
}

// The block size that the word behind the first `--bsize` writes.
fn size_given(words: &[String]) -> Option<u32>
    ensures exact { result ≡ the_size_given (map string_bytes words.now) }
    ensures some { IfSome result IsBlockSize }
{
    let mut rest = words;
    while let [word, behind @ ..] = rest {
        if word.as_bytes() == b"--bsize".as_slice() {
            return first_size(behind);
        }
        rest = behind;
    }
    None
}

/// The block size of an image: that behind the first `--bsize` where it is one of the four, else that of the
/// image's superblock where that is, else 4096.
pub fn block_size_of<F: Files<File = File>>(
    rt: &F,
    image: &str,
    words: &[String],
) -> io::Result<u32>
    ensures some { IfOk result IsBlockSize }
    ensures given { (size : ℕ) → the_size_given (map string_bytes words.now) ≡ Some size → result ≡ Ok size }
{
    if let Some(size) = size_given(words) {
        return Ok(size);
    }
    let mut file = File::open(rt, image)?;
    file.seek(SeekFrom::Start(FIELD))?;
    let mut field = [0u8; 4];
    match file.read_exact(&mut field) {
        Ok(()) => Ok(one_of_four(u32::from_be_bytes(field))),
        Err(fault) if fault.kind() == ErrorKind::UnexpectedEof => Ok(4096),
        Err(fault) => Err(fault),
    }
}

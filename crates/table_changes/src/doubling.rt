// The bytes of a table that is twice as long.
ghost use Rattle.std.specs.Prelude.{ℕ, ◌≡◌, ◌+◌, ◌-◌, ◌*◌, ◌/◌, ◌%◌, ◌^◌, ◌<◌, ◌≤◌, ◌++◌, length, IfOk, OnOk};
ghost use Rattle.gfs2_layout.specs.Bytes.{u64_at};
ghost use Rattle.table_files.specs.Files.{header_at, table_block, table_bytes as bytes_of};

use gfs2_layout::MetaHeader;
use no_memory::NoMemory;
use std::alloc::Global;
use table_files::IN_TABLE;

/// Each eight bytes twice, one behind the other.
pub(crate) fn each_twice(alloc: Global, bytes: &[u8]) -> Result<Vec<u8>, NoMemory>
    requires { length bytes.now < 2 ^ 32 }
    ensures long { IfOk result (λ twice. length twice.items ≡ 8 * (2 * (length bytes.now / 8))) }
    ensures each { IfOk result (λ twice. (i : ℕ) → i < 2 * (length bytes.now / 8) → u64_at (8 * i) twice.items ≡ u64_at (8 * (i / 2)) bytes.now) }
{
    let mut twice = Vec::new(alloc);
    for k in 0..bytes.len() / 8 {
        let number = &bytes[8 * k..8 * k + 8];
        twice.extend_from_slice(number)?;
        twice.extend_from_slice(number)?;
    }
    Ok(twice)
}

// One more header: that of the table block with this index, or a new one.
fn push_header(bytes: &mut Vec<u8>, headers: &[u8], index: usize) -> Result<(), NoMemory>
    requires whole { length headers.now % 24 ≡ 0 }
    requires few { index < 2 ^ 32 }
    ensures { OnOk result (bytes.new.items ≡ bytes.old.items ++ header_at headers.now index) }
{
    let at = index * IN_TABLE;
    if at < headers.len() {
        bytes.extend_from_slice(&headers[at..at + IN_TABLE])?;
        return Ok(());
    }
    let mut header = [0u8; IN_TABLE];
    let new = MetaHeader {
        kind: 7,
        format: 700,
        jid: 0,
    };
    new.write(&mut header);
    bytes.extend_from_slice(&header)?;
    Ok(())
}

// One more table block.
fn push_block(
    bytes: &mut Vec<u8>,
    size: usize,
    headers: &[u8],
    pointers: &[u8],
    index: usize,
) -> Result<(), NoMemory>
    requires large { 512 ≤ size }
    requires small { size ≤ 4096 }
    requires whole { length headers.now % 24 ≡ 0 }
    requires few { index < 2 ^ 32 }
    requires within { index * (size - 24) < length pointers.now }
    requires room { length bytes.old.items < 2 ^ 62 }
    ensures { OnOk result (bytes.new.items ≡ bytes.old.items ++ table_block size headers.now pointers.now index) }
{
    push_header(bytes, headers, index)?;
    let carries = size - IN_TABLE;
    let from = index * carries;
    let part = carries.min(pointers.len() - from);
    bytes.extend_from_slice(&pointers[from..from + part])?;
    let end = bytes.len() + (carries - part);
    bytes.resize(end, 0)?;
    Ok(())
}

/// The blocks of a table with these pointers, one behind another, each of `size` bytes: the first of them with these headers, and each
/// other one with that of a new block.
pub(crate) fn table_bytes(
    alloc: Global,
    size: usize,
    headers: &[u8],
    pointers: &[u8],
) -> Result<Vec<u8>, NoMemory>
    requires large { 512 ≤ size }
    requires small { size ≤ 4096 }
    requires whole { length headers.now % 24 ≡ 0 }
    requires few { length pointers.now < 2 ^ 32 }
    ensures { IfOk result (λ bytes. bytes.items ≡ bytes_of size headers.now pointers.now) }
{
    let mut bytes = Vec::new(alloc);
    for index in 0..pointers.len().div_ceil(size - IN_TABLE) {
        push_block(&mut bytes, size, headers, pointers, index)?;
    }
    Ok(bytes)
}

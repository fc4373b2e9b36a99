ghost use Rattle.std.specs.Prelude.{◌≡◌, ◌≢◌, ◌+◌, ◌-◌, ◌*◌, ◌/◌, ◌^◌, ◌<◌, ◌≤◌, length, replicate, take, drop};
ghost use Rattle.gfs2_layout.specs.Putting.{least_length as least_length_of};
ghost use Rattle.mkgfs2_tool.specs.Directories.{IsNamed, AreNamed, Fit, name_of, record_bytes, records};

use crate::bytes::put_bytes;
use gfs2_layout::{Dirent, Inum, least_length};

/// The name of an entry of a new image's directories.
#[derive(Clone, Copy, Debug, PartialEq, Eq)]
pub(crate) enum Name {
    This,
    Parent,
    Jindex,
    Rindex,
    Journal(u64),
}

impl Name {
    ghost use Rattle.mkgfs2_tool.specs.Directories.{HasName, name_bytes};

    fn bytes(self) -> &'static [u8]
        requires { HasName self }
        ensures value { result.now ≡ name_bytes self }
        ensures short { length result.now ≤ 8 }
    {
        match self {
            Name::This => b".",
            Name::Parent => b"..",
            Name::Jindex => b"jindex",
            Name::Rindex => b"rindex",
            Name::Journal(0) => b"journal0",
            Name::Journal(1) => b"journal1",
            Name::Journal(2) => b"journal2",
            Name::Journal(3) => b"journal3",
            Name::Journal(4) => b"journal4",
            Name::Journal(5) => b"journal5",
            Name::Journal(6) => b"journal6",
            Name::Journal(_) => b"journal7",
        }
    }
}

/// An entry of a directory: its name, and formal number, address and kind (4 a directory, 8 a file) of what it names; and
/// over how many bytes of records that it took up its own record reaches.
#[derive(Clone, Copy, Debug, PartialEq, Eq)]
pub(crate) struct Entry {
    pub name: Name,
    pub number: u64,
    pub address: u64,
    pub kind: u16,
    pub reach: u8,
}

// The least length of a record with a name of so many bytes.
fn record_length(name: usize) -> usize
    requires { name ≤ 8 }
    ensures value { result ≡ least_length_of name }
    ensures room { 40 + name ≤ result }
{
    least_length(name as u16) as usize
}

// Makes one record of all these bytes.
fn put_record(bytes: &mut [u8], entry: Entry)
    requires named { IsNamed entry }
    requires room { 40 + length (name_of entry) ≤ length bytes.old }
    requires short { length bytes.old ≤ 4096 }
    ensures { bytes.new ≡ record_bytes entry (length bytes.old) }
{
    let name = entry.name.bytes();
    let head = Dirent {
        inum: Inum {
            number: entry.number,
            address: entry.address,
        },
        hash: crc_words::crc32(name),
        rec_len: bytes.len() as u16 + u16::from(entry.reach),
        name_len: name.len() as u16,
        kind: entry.kind,
        rahead: 0,
    };
    bytes.fill(0);
    head.write(bytes);
    put_bytes(bytes, 40, name);
}

/// Fills an area with these records: each stands in its least length, and the last takes the rest.
#[tactic(auto, using(crate::proofs::RecordLaws::first_of_several, crate::proofs::RecordLaws::only_one))]
pub(crate) fn put_records(area: &mut [u8], entries: &[Entry])
    requires named { AreNamed entries.now }
    requires fit { Fit (length area.old) entries.now }
    requires short { length area.old ≤ 4096 }
    ensures { area.new ≡ records (length area.old) entries.now }
{
    if let [entry, later @ ..] = entries {
        if later.is_empty() {
            put_record(area, *entry);
        } else {
            let (first, rest) = area.split_at_mut(record_length(entry.name.bytes().len()));
            put_record(first, *entry);
            put_records(rest, later);
        }
    }
}

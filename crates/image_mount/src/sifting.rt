ghost use Rattle.std.specs.Prelude.{◌≡◌, ◌≢◌, ◌<◌, ◌≤◌, ℕ, false, length, codes, IfOk, IfErr, IfSome, IfNone};
ghost use Rattle.gfs2_layout.specs.Records.{is_dots};
ghost use Rattle.image_mount.specs.Searching.{IsSteady};
ghost use Rattle.image_mount.specs.Sifting.{AreSifted, IsBeside, IsForeign};
ghost use Rattle.image_mount.specs.declared.fault.MountFault.TheVariants as fault;
ghost use Rattle.image_mount.specs.declared.leaf.Names.TheVariants.{Files, Journals};

use crate::fault::MountFault;
use crate::leaf::Names;
use crate::listing::Named;
use std::alloc::Global;

/// The records of a leaf that have names which are looked for, and how many have others.
#[derive(Drop)]
pub(crate) struct Sifted {
    pub records: Vec<Named<'static>>,
    pub others: u64,
}

// One of the two names that lead nowhere on.
fn dots_name(name: &[u8]) -> Option<&'static [u8]>
    ensures same { IfSome result (λ known. known.now ≡ name.now) }
    ensures none { IfNone result (is_dots name.now ≡ false) }
{
    if name == b".".as_slice() {
        return Some(b".");
    }
    if name == b"..".as_slice() {
        return Some(b"..");
    }
    None
}

// The name of a system file.
fn file_name(name: &[u8]) -> Option<&'static [u8]>
    ensures same { IfSome result (λ known. known.now ≡ name.now) }
    ensures none { IfNone result (IsForeign Files name.now) }
{
    if name == b"jindex".as_slice() {
        return Some(b"jindex");
    }
    if name == b"rindex".as_slice() {
        return Some(b"rindex");
    }
    None
}

// The name of one of the first four journals.
fn early_journal(name: &[u8]) -> Option<&'static [u8]>
    ensures same { IfSome result (λ known. known.now ≡ name.now) }
    ensures none { IfNone result ((name.now ≢ codes "journal0") × (name.now ≢ codes "journal1") × (name.now ≢ codes "journal2") × (name.now ≢ codes "journal3")) }
{
    if name == b"journal0".as_slice() {
        return Some(b"journal0");
    }
    if name == b"journal1".as_slice() {
        return Some(b"journal1");
    }
    if name == b"journal2".as_slice() {
        return Some(b"journal2");
    }
    if name == b"journal3".as_slice() {
        return Some(b"journal3");
    }
    None
}

// The name of one of the next four.
fn late_journal(name: &[u8]) -> Option<&'static [u8]>
    ensures same { IfSome result (λ known. known.now ≡ name.now) }
    ensures none { IfNone result ((name.now ≢ codes "journal4") × (name.now ≢ codes "journal5") × (name.now ≢ codes "journal6") × (name.now ≢ codes "journal7")) }
{
    if name == b"journal4".as_slice() {
        return Some(b"journal4");
    }
    if name == b"journal5".as_slice() {
        return Some(b"journal5");
    }
    if name == b"journal6".as_slice() {
        return Some(b"journal6");
    }
    if name == b"journal7".as_slice() {
        return Some(b"journal7");
    }
    None
}

// The name of a journal.
fn journal_name(name: &[u8]) -> Option<&'static [u8]>
    ensures same { IfSome result (λ known. known.now ≡ name.now) }
    ensures none { IfNone result (IsForeign Journals name.now) }
{
    match early_journal(name) {
        Some(known) => Some(known),
        None => late_journal(name),
    }
}

// A name that is looked for.
fn known_name(names: Names, name: &[u8]) -> Option<&'static [u8]>
    ensures same { IfSome result (λ known. known.now ≡ name.now) }
    ensures none { IfNone result (IsBeside names name.now) }
{
    if let Some(dots) = dots_name(name) {
        return Some(dots);
    }
    match names {
        Names::Files => file_name(name),
        Names::Journals => journal_name(name),
    }
}

/// Parts the records of a leaf by their names. What it keeps costs memory for ten names at most, if none comes twice.
pub(crate) fn sift(alloc: Global, names: Names, records: &[Named<'_>]) -> Result<Sifted, MountFault>
    ensures sifted { IfOk result (λ sifted. AreSifted names records.now (length records.now) sifted.records.items sifted.others) }
    ensures memory { IfErr result (λ reason. reason ≡ fault.NoMemory) }
    ensures steady { IfErr result IsSteady }
{
    let mut kept = Vec::new(alloc);
    let mut others = 0;
    for record in records {
        match known_name(names, record.name) {
            Some(name) => kept.push(Named {
                name,
                entry: record.entry,
                block: record.block,
            })?,
            None => others += 1,
        }
    }
    Ok(Sifted {
        records: kept,
        others,
    })
}

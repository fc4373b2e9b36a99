// What is in a journal, in a line.
ghost use Rattle.std.specs.Prelude.{IfOk, IfSome};
ghost use Rattle.journal_scan.specs.Images.{IsImage};

use crate::journals::Laid;
use crc_words::crc32;
use file_tree::Content;
use journal_scan::{JournalImage, ScanFault, find_head};
use log_layout::LogHeader;
use no_memory::NoMemory;
use peer_replay::{Plan, plan};
use std::alloc::Global;

// The journal as it is read, where its blocks are of one of the four sizes.
fn image_of(laid: &Laid) -> Result<Option<JournalImage>, NoMemory>
    ensures { IfOk result (λ image. IfSome image IsImage) }
{
    let (size, places) = (laid.size, laid.places);
    if size != 512 && size != 1024 && size != 2048 && size != 4096 {
        return Ok(None);
    }
    if laid.bytes.len() as u64 != u64::from(places) * u64::from(size) {
        return Ok(None);
    }
    let bytes = Content::new(laid.bytes.clone()?);
    Ok(Some(JournalImage {
        block_size: size,
        length: places,
        bytes,
    }))
}

// The head: its place, sequence and tail, and which version it is.
fn tell_head(alloc: Global, text: &mut String, head: &LogHeader) -> Result<(), NoMemory> {
    let version = if head.later.is_some() { 2 } else { 1 };
    let (place, sequence, tail) = (head.blkno, head.sequence, head.tail);
    text.push_str(format!(in alloc;
        "head {place} sequence {sequence} tail {tail} version {version}"
    )?.as_str())?;
    Ok(())
}

// What goes home, each block with the CRC-32 of its bytes, and the clean header behind it.
fn tell_plan(alloc: Global, text: &mut String, plan: &Plan) -> Result<(), NoMemory> {
    for written in &plan.home {
        let sum = crc32(written.bytes.bytes());
        let kind = if written.plain { "content" } else { "metadata" };
        let block = written.block;
        text.push_str(format!(in alloc; ", {kind} {block} {sum:08x}")?.as_str())?;
    }
    match &plan.clean {
        None => text.push_str(", clean")?,
        Some(header) => {
            let (place, sequence) = (header.blkno, header.sequence);
            text.push_str(format!(in alloc; ", then clean {place} sequence {sequence}")?.as_str())?;
        }
    }
    Ok(())
}

// Why it isn't read.
fn tell_fault(alloc: Global, fault: ScanFault) -> Result<String, NoMemory> {
    match fault {
        ScanFault::NoHeader => Ok(String::from_str(alloc, "no header")?),
        ScanFault::BadChunk(place) => Ok(format!(in alloc; "bad chunk at {place}")?),
        ScanFault::NoMemory => Err(NoMemory),
    }
}

fn tell_image(alloc: Global, image: &JournalImage) -> Result<String, NoMemory>
    requires { IsImage image.now }
{
    let head = match find_head(image) {
        Ok(head) => head,
        Err(fault) => return tell_fault(alloc, fault),
    };
    match plan(alloc, image) {
        Ok(plan) => {
            let mut text = String::new(alloc);
            tell_head(alloc, &mut text, &head)?;
            tell_plan(alloc, &mut text, &plan)?;
            Ok(text)
        }
        Err(fault) => tell_fault(alloc, fault),
    }
}

/// What is in the journal that was laid out.
pub(crate) fn tell(alloc: Global, laid: &Laid) -> Result<String, NoMemory> {
    match image_of(laid)? {
        Some(image) => tell_image(alloc, &image),
        None => Ok(String::from_str(alloc, "no journal")?),
    }
}

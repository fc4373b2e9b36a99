// A command over memory, and what it left.
ghost use Rattle.std.specs.Prelude.{IfOk};
ghost use Rattle.shared_disk.specs.Outcomes.{AreOfSize, IsOfSize};

use anyhow::{Result, bail, ensure};
use cluster_program::gfs2run_alone;
use row_texts::{put_bytes, put_hex};
use shared_disk::{MemDisk, Outcome};
use std::alloc::Global;
use stream_io::{MemSink, MemSource};

/// The calls that fail of the disk, the script's source, the trace's sink and the output's, counted from 1.
#[derive(Drop)]
pub(crate) struct Fails {
    pub disk: Vec<u64>,
    pub script: Vec<u64>,
    pub trace: Vec<u64>,
    pub out: Vec<u64>,
}

impl Fails {
    pub(crate) fn none(alloc: Global) -> Fails {
        Fails {
            disk: Vec::new(alloc),
            script: Vec::new(alloc),
            trace: Vec::new(alloc),
            out: Vec::new(alloc),
        }
    }

    /// These, but that one call alone of the disk fails.
    pub(crate) fn with_disk(&self, alloc: Global, call: u64) -> Result<Fails> {
        Ok(Fails {
            disk: vec![in alloc; call]?,
            script: self.script.to_vec(alloc)?,
            trace: self.trace.to_vec(alloc)?,
            out: self.out.to_vec(alloc)?,
        })
    }
}

/// What a command is given: its words, the script, the calls that fail, and the words for what writes in flight become.
#[derive(Drop)]
pub(crate) struct Given<'a> {
    pub words: &'a str,
    pub script: Vec<u8>,
    pub fails: Fails,
    pub outcomes: Vec<&'a str>,
}

/// What a command left.
#[derive(Drop)]
pub(crate) struct Left {
    pub status: u8,
    pub out: MemSink,
    pub trace: MemSink,
    pub bytes: Vec<u8>,
}

fn split_words(alloc: Global, words: &str) -> Result<Vec<String>> {
    let mut all = Vec::new(alloc);
    for word in words.split(' ') {
        if !word.is_empty() {
            all.push(word.to_string(alloc)?)?;
        }
    }
    Ok(all)
}

// What a write in flight becomes: `old`, `new`, or a block that is zeros but for the bytes of these digits at its front.
fn outcome_of(alloc: Global, size: u32, word: &str) -> Result<Outcome>
    ensures { IfOk result (IsOfSize size) }
{
    match word {
        "old" => Ok(Outcome::Old),
        "new" => Ok(Outcome::New),
        _ => {
            let mut front = Vec::new(alloc);
            put_hex(&mut front, word)?;
            let mut bytes = vec![in alloc; 0u8; size as usize]?;
            ensure!(put_bytes(&mut bytes, 0, &front), "more than a block");
            ensure!(bytes.len() == size as usize, "not a block");
            Ok(Outcome::Bytes(bytes))
        }
    }
}

fn outcomes_of(alloc: Global, size: u32, words: &[&str]) -> Result<Vec<Outcome>>
    ensures { IfOk result (λ outcomes. AreOfSize size outcomes.items) }
{
    let mut outcomes = Vec::new(alloc);
    for word in words {
        outcomes.push(outcome_of(alloc, size, word)?)?;
    }
    Ok(outcomes)
}

/// Carries a command out on a disk of these bytes.
pub(crate) fn carry_out(
    alloc: Global,
    size: u32,
    bytes: Vec<u8>,
    given: &Given<'_>,
    fails: &Fails,
) -> Result<Left> {
    if size != 512 && size != 1024 && size != 2048 && size != 4096 {
        bail!("no size of a block: {size}");
    }
    ensure!(bytes.len() % size as usize == 0, "a part of a block");
    let outcomes = outcomes_of(alloc, size, &given.outcomes)?;
    let Ok(disk) = MemDisk::new(size, bytes, fails.disk.to_vec(alloc)?, outcomes, 0) else {
        bail!("no memory");
    };
    let mut script = MemSource::new(given.script.to_vec(alloc)?, fails.script.to_vec(alloc)?);
    let mut trace = MemSink::new(alloc, fails.trace.to_vec(alloc)?);
    let mut out = MemSink::new(alloc, fails.out.to_vec(alloc)?);
    let words = split_words(alloc, given.words)?;
    let ended = gfs2run_alone(alloc, &words, disk, &mut script, &mut out, &mut trace);
    Ok(Left {
        status: ended.status.number(),
        out,
        trace,
        bytes: ended.disk.into_bytes(),
    })
}

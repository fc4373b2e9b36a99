ghost use Rattle.std.specs.Prelude.{◌<◌, ◌≤◌};

use crc_words::crc32;
use dlm_master::{Answer, Cause, Claim, Master};
use dlm_modes::{Mode, ValueBlock, covers};
use glock_names::LockName;
use no_memory::NoMemory;
use std::alloc::Global;

const LOCK: LockName = LockName { kind: 2, number: 9 };

const OTHER: LockName = LockName {
    kind: 2,
    number: 10,
};

// Numbers that follow from a seed.
#[derive(Drop)]
struct Draw {
    x: u64,
}

impl Draw {
    // The next number below the count.
    fn below(&mut self, count: u64) -> u64
        requires { 0 < count }
        ensures { result < count }
    {
        self.x = self
            .x
            .wrapping_mul(6364136223846793005)
            .wrapping_add(1442695040888963407);
        (self.x >> 33) % count
    }
}

fn mode_at(place: u64) -> Mode {
    match place {
        0 => Mode::Nl,
        1 => Mode::Cr,
        2 => Mode::Cw,
        3 => Mode::Pr,
        4 => Mode::Pw,
        _ => Mode::Ex,
    }
}

fn word(mode: Mode) -> &'static str {
    match mode {
        Mode::Nl => "nl",
        Mode::Cr => "cr",
        Mode::Cw => "cw",
        Mode::Pr => "pr",
        Mode::Pw => "pw",
        Mode::Ex => "ex",
    }
}

fn state(valid: bool) -> &'static str {
    if valid { "valid" } else { "not" }
}

// The first byte of a value and the last, and whether it is valid.
fn tell_value(out: &mut String, value: ValueBlock) -> Result<(), NoMemory> {
    let first = value.bytes[0];
    let last = value.bytes[31];
    let state = state(value.valid);
    write!(out, " {first} {last} {state}")?;
    Ok(())
}

fn tell(out: &mut String, answer: Answer) -> Result<(), NoMemory> {
    match answer {
        Answer::Granted(value) => {
            out.push_str("granted")?;
            tell_value(out, value)?;
            out.push_str("\n")?;
        }
        Answer::Waiting(cause) => tell_cause(out, cause)?,
    }
    Ok(())
}

fn tell_cause(out: &mut String, cause: Cause) -> Result<(), NoMemory> {
    match cause {
        Cause::Held(node) => writeln!(out, "waits held {node}")?,
        Cause::Behind(node) => writeln!(out, "waits behind {node}")?,
        Cause::Rebuild => writeln!(out, "waits rebuild")?,
        Cause::Slot(node) => writeln!(out, "waits slot {node}")?,
    }
    Ok(())
}

fn request(
    out: &mut String,
    master: &mut Master,
    lock: LockName,
    claim: Claim,
) -> Result<(), NoMemory> {
    let Claim { node, mode } = claim;
    if master.waits(node, lock) {
        writeln!(out, "-")?;
        return Ok(());
    }
    match master.held(node, lock) {
        Some(_) => writeln!(out, "-")?,
        None => tell(out, master.request(node, lock, mode)?)?,
    }
    Ok(())
}

fn convert(
    out: &mut String,
    master: &mut Master,
    lock: LockName,
    claim: Claim,
) -> Result<(), NoMemory> {
    let Claim { node, mode } = claim;
    if master.waits(node, lock) {
        writeln!(out, "-")?;
        return Ok(());
    }
    match master.held(node, lock) {
        Some(had) if covers(mode, had) => tell(out, master.convert(node, lock, mode)?)?,
        _ => writeln!(out, "-")?,
    }
    Ok(())
}

// The value of a byte: its first byte is that, and its last one another.
fn value_of(byte: u8) -> [u8; 32] {
    let mut bytes = [byte; 32];
    bytes[31] = 255 - byte;
    bytes
}

fn down(
    out: &mut String,
    master: &mut Master,
    lock: LockName,
    claim: Claim,
    value: Option<[u8; 32]>,
) -> Result<(), NoMemory> {
    let Claim { node, mode } = claim;
    if master.waits(node, lock) {
        writeln!(out, "-")?;
        return Ok(());
    }
    match master.held(node, lock) {
        Some(had) if covers(had, mode) && !covers(mode, had) => {
            master.down(node, lock, mode, value);
            writeln!(out, "down")?;
        }
        _ => writeln!(out, "-")?,
    }
    Ok(())
}

fn tell_grant(out: &mut String, grant: (u8, Mode, ValueBlock)) -> Result<(), NoMemory> {
    let (node, mode, value) = grant;
    let mode = word(mode);
    write!(out, " {node} {mode}")?;
    tell_value(out, value)
}

fn next_grants(out: &mut String, master: &mut Master, lock: LockName) -> Result<(), NoMemory> {
    let grants = master.next_grants(lock)?;
    out.push_str("grants")?;
    for grant in &grants {
        tell_grant(out, *grant)?;
    }
    out.push_str("\n")?;
    Ok(())
}

fn callbacks(out: &mut String, master: &Master, lock: LockName) -> Result<(), NoMemory> {
    let callbacks = master.callbacks(lock)?;
    out.push_str("callbacks")?;
    for callback in &callbacks {
        let (node, mode) = *callback;
        let mode = word(mode);
        write!(out, " {node} {mode}")?;
    }
    out.push_str("\n")?;
    Ok(())
}

fn claim(node: u8, mode: Mode) -> Claim {
    Claim { node, mode }
}

/// A row of calls on one master.
pub fn row(alloc: Global) -> Result<String, NoMemory> {
    let mut master = Master::new(alloc, 1);
    let mut text = String::new(alloc);
    let out = &mut text;
    request(out, &mut master, LOCK, claim(1, Mode::Ex))?;
    request(out, &mut master, LOCK, claim(2, Mode::Pr))?;
    callbacks(out, &master, LOCK)?;
    let value = Some(value_of(7));
    down(out, &mut master, LOCK, claim(1, Mode::Pr), value)?;
    next_grants(out, &mut master, LOCK)?;
    convert(out, &mut master, LOCK, claim(1, Mode::Ex))?;
    request(out, &mut master, LOCK, claim(3, Mode::Cr))?;
    down(out, &mut master, LOCK, claim(2, Mode::Nl), None)?;
    next_grants(out, &mut master, LOCK)?;
    Ok(text)
}

fn block(out: &mut String, master: &mut Master, node: u8, byte: u8) -> Result<(), NoMemory>
    requires { node ≤ 4 }
{
    let waiting: u16 = if byte % 4 == 1 { 1 << node } else { 0 };
    master.blocked(byte % 4 == 0, waiting);
    writeln!(out, "blocked")?;
    Ok(())
}

fn call(out: &mut String, master: &mut Master, draw: &mut Draw) -> Result<(), NoMemory> {
    let kind = draw.below(8);
    let node = 1 + draw.below(4) as u8;
    let mode = mode_at(draw.below(6));
    let byte = draw.below(256) as u8;
    let lock = if draw.below(4) < 3 { LOCK } else { OTHER };
    let claim = Claim { node, mode };
    if kind < 3 {
        request(out, master, lock, claim)
    } else if kind == 3 {
        convert(out, master, lock, claim)
    } else if kind < 6 {
        let value = if byte % 2 == 1 {
            Some(value_of(byte))
        } else {
            None
        };
        down(out, master, lock, claim, value)
    } else if kind == 6 {
        next_grants(out, master, lock)
    } else if mode == Mode::Ex {
        block(out, master, node, byte)
    } else {
        callbacks(out, master, lock)
    }
}

// A node that tells a rebuild that isn't done what it holds.
fn report(
    out: &mut String,
    master: &mut Master,
    lock: LockName,
    claim: Claim,
) -> Result<(), NoMemory> {
    let Claim { node, mode } = claim;
    master.blocked(true, 0);
    if master.waits(node, lock) {
        writeln!(out, "-")?;
        return Ok(());
    }
    master.report(node, lock, mode)?;
    writeln!(out, "reported")?;
    Ok(())
}

// A node that holds the lock asks for another mode, and one that doesn't for the lock.
fn ask(
    out: &mut String,
    master: &mut Master,
    lock: LockName,
    claim: Claim,
) -> Result<(), NoMemory> {
    match master.held(claim.node, lock) {
        None => request(out, master, lock, claim),
        Some(_) => convert(out, master, lock, claim),
    }
}

fn conversion_call(out: &mut String, master: &mut Master, draw: &mut Draw) -> Result<(), NoMemory> {
    let kind = draw.below(8);
    let node = 1 + draw.below(3) as u8;
    let mode = mode_at(draw.below(6));
    let byte = draw.below(256) as u8;
    let claim = Claim { node, mode };
    if kind < 3 {
        ask(out, master, LOCK, claim)
    } else if kind < 5 {
        let value = if byte % 2 == 1 {
            Some(value_of(byte))
        } else {
            None
        };
        down(out, master, LOCK, claim, value)
    } else if kind < 7 {
        next_grants(out, master, LOCK)
    } else {
        block(out, master, node, byte)
    }
}

// Three nodes report to a rebuild that they hold the lock, in Cr or Pr; then 24 calls on that lock, most of them on conversions.
fn conversions(out: &mut String, alloc: Global, seed: u64) -> Result<(), NoMemory> {
    let mut master = Master::new(alloc, 1);
    let mut draw = Draw { x: seed };
    for node in 1..4u8 {
        let mode = mode_at(1 + 2 * draw.below(2));
        report(out, &mut master, LOCK, Claim { node, mode })?;
    }
    for _ in 0..24u64 {
        conversion_call(out, &mut master, &mut draw)?;
    }
    callbacks(out, &master, LOCK)
}

// 24 calls of four nodes on two locks.
fn calls(out: &mut String, alloc: Global, seed: u64) -> Result<(), NoMemory> {
    let mut master = Master::new(alloc, 1);
    let mut draw = Draw { x: seed };
    for _ in 0..24u64 {
        call(out, &mut master, &mut draw)?;
    }
    Ok(())
}

/// The checksum of the answers of a hundred lists of calls, forty of them on conversions.
pub fn hundred(alloc: Global, place: u64) -> Result<u32, NoMemory>
    requires { place < 100 }
{
    let mut text = String::new(alloc);
    for k in 0..100u64 {
        let seed = 100 * place + k;
        if seed % 5 < 2 {
            conversions(&mut text, alloc, seed)?;
        } else {
            calls(&mut text, alloc, seed)?;
        }
    }
    Ok(crc32(text.as_bytes()))
}

//! Runs a cluster over one disk image: `gfs2run IMAGE TRACE COMMAND`.
#![tactic(auto)]

ghost use Rattle.std.specs.Prelude.{IfOk};
ghost use Rattle.gfs2_layout.specs.Device.{IsBlockSize};
ghost use Rattle.shared_disk.specs.Disk.{IsIdle};
ghost use Rattle.shared_disk.specs.Files.{file_state};

mod arguments;
mod files;
mod size;

use arguments::{arguments, texts};
use cluster_program::{Ended, gfs2run};
use files::{image_at, open_trace};
use shared_disk::{FileDisk, OpenError};
use size::block_size_of;
use std::alloc::Global;
use std::fs::{File, Files};
use std::io::{self, Input};
use std::process::ExitCode;
use std::sync::Wait;
use std::thread::Threads;
use stream_io::{Open, StdSink, StdSource};

const HELP: &str = "usage: gfs2run IMAGE TRACE COMMAND

Runs a cluster over the disk image IMAGE and writes the trace of the run to TRACE.
Standard input is the script; standard output gets each client's replies and the counts
of a run, or the lines of a show, and the status, whose number is the exit status.

commands:
  mkfs [--bsize N] [--journals N] [--journal-blocks N] [--groups N] [--uuid TEXT] [--time N]
                    makes an image of the whole file IMAGE
  show              prints the image's journals and its tree, and writes nothing to it
  replay            puts home what the image's journals say
  run [--time N]    runs the script

options, as the only word:
  --help       prints this
  --version    prints the version
";

// Prints what the program says itself, and ends with this status, or with 7 where the output takes it not.
fn end_with(rt: &impl Print, parts: &[&[u8]], status: u8) -> ExitCode {
    for part in parts {
        if rt.write_all(part).is_err() {
            return ExitCode::from(7);
        }
    }
    ExitCode::from(status)
}

fn cannot_open(rt: &impl Print, name: &[u8]) -> ExitCode {
    end_with(rt, &[b"cannot open ", name, b"\n"], 12)
}

fn no_memory(rt: &impl Print) -> ExitCode {
    end_with(rt, &[b"no memory\n"], 8)
}

// The disk of the image. `show` opens it for reading alone.
fn open_disk<F: Files<File = File>>(
    rt: &F,
    alloc: Global,
    image: &str,
    command: &[String],
) -> Result<FileDisk, OpenError>
    ensures size { IfOk result (λ d. IsBlockSize d.size) }
    ensures idle { IfOk result (λ d. IsIdle (file_state d)) }
{
    let Ok(block_size) = block_size_of(rt, image, command) else {
        return Err(OpenError::Failed);
    };
    match command {
        [word, ..] if word.as_str() == "show" => {
            FileDisk::open_for_reading(rt, alloc, image, block_size)
        }
        _ => FileDisk::open(rt, alloc, image, block_size),
    }
}

// Carries out a command on these files.
fn carry_out<R>(rt: &R, image: &[u8], trace: &[u8], command: &[String]) -> ExitCode
where
    R: Threads + Wait + Sync + AllocGlobal + Files<File = File> + Input + Print,
{
    let alloc = rt.alloc();
    // std opens files by names that are text alone.
    let Ok(path) = str::from_utf8(image) else {
        return cannot_open(rt, image);
    };
    let Ok(about) = image_at(rt, path) else {
        return cannot_open(rt, image);
    };
    let disk = match open_disk(rt, alloc, path, command) {
        Ok(disk) => disk,
        Err(OpenError::Failed) => return cannot_open(rt, image),
        Err(OpenError::NoMemory) => return no_memory(rt),
    };
    let Ok(path) = str::from_utf8(trace) else {
        return cannot_open(rt, trace);
    };
    let Ok(file) = open_trace(rt, path, &about) else {
        return cannot_open(rt, trace);
    };
    let mut script = StdSource::new(rt.reader());
    let mut out = StdSink::new(io::writer(rt));
    let mut trace = StdSink::new(file);
    let Ended { status, disk: _ } = gfs2run(
        rt,
        alloc,
        command,
        disk,
        &mut script,
        &mut out,
        &mut trace,
        &Open,
    );
    ExitCode::from(status.number())
}

// What stands in for a standard stream that is closed. Its number would go to the next file that is opened, and what
// is meant for the stream would then be read from the image, or written to it.
const NOTHING: &str = "/dev/null";

fn main(rt: HostRuntime) -> ExitCode {
    let _input = File::open(&rt, NOTHING).ok();
    let _output = File::open(&rt, NOTHING).ok();
    let _faults = File::open(&rt, NOTHING).ok();
    let alloc = rt.alloc();
    let Ok(words) = arguments(&rt, alloc) else {
        return no_memory(&rt);
    };
    match words.as_slice() {
        [_, word] if word.as_slice() == b"--help".as_slice() => {
            end_with(&rt, &[HELP.as_bytes()], 0)
        }
        [_, word] if word.as_slice() == b"--version".as_slice() => {
            end_with(&rt, &[b"gfs2run 0.1.0\n"], 0)
        }
        [_, image, trace, command @ ..] => {
            let Ok(command) = texts(alloc, command) else {
                return no_memory(&rt);
            };
            carry_out(&rt, image, trace, &command)
        }
        _ => end_with(&rt, &[b"usage: word 1\n"], 1),
    }
}

// Words and what they are read as, worked out by hand from the rules of the command line. The words of a row stand
// between single spaces.
use command_words::{Command, LoadWords, MakeWords, RunWords, Usage, read_words};
use std::alloc::Global;
use std::process::Abort;
use std::test::Fail;

const NIL: [u8; 16] = [0; 16];

const IDENTIFIER: [u8; 16] = [
    0x67, 0xe5, 0x50, 0x44, 0x10, 0xb1, 0x42, 0x6f, 0x92, 0x47, 0xbb, 0x68, 0x0e, 0x5f, 0xe0, 0xc8,
];

// The size of the disk's blocks, the words of a `mkfs`, and the journals, their blocks, the groups, the identifier and
// the time that they ask for.
const MAKE: [(u32, &str, (u32, u32, u32, [u8; 16], u64)); 21] = [
    (4096, "mkfs", (1, 1024, 1, NIL, 0)),
    (512, "mkfs --bsize 512", (1, 1024, 1, NIL, 0)),
    (1024, "mkfs --bsize 1024", (1, 1024, 1, NIL, 0)),
    (2048, "mkfs --bsize 2048", (1, 1024, 1, NIL, 0)),
    (4096, "mkfs --bsize 4096", (1, 1024, 1, NIL, 0)),
    (4096, "mkfs --journals 1", (1, 1024, 1, NIL, 0)),
    (4096, "mkfs --journals 8", (8, 1024, 1, NIL, 0)),
    (4096, "mkfs --journal-blocks 512", (1, 512, 1, NIL, 0)),
    (4096, "mkfs --journal-blocks 65536", (1, 65_536, 1, NIL, 0)),
    (4096, "mkfs --groups 1", (1, 1024, 1, NIL, 0)),
    (4096, "mkfs --groups 64", (1, 1024, 64, NIL, 0)),
    (4096, "mkfs --time 0", (1, 1024, 1, NIL, 0)),
    (
        4096,
        "mkfs --time 9223372036854775807",
        (1, 1024, 1, NIL, 9_223_372_036_854_775_807),
    ),
    (
        4096,
        "mkfs --uuid 67e5504410b1426f9247bb680e5fe0c8",
        (1, 1024, 1, IDENTIFIER, 0),
    ),
    (
        4096,
        "mkfs --uuid 67e55044-10b1-426f-9247-bb680e5fe0c8",
        (1, 1024, 1, IDENTIFIER, 0),
    ),
    (
        4096,
        "mkfs --uuid {67e55044-10b1-426f-9247-bb680e5fe0c8}",
        (1, 1024, 1, IDENTIFIER, 0),
    ),
    (
        4096,
        "mkfs --uuid urn:uuid:67e55044-10b1-426f-9247-bb680e5fe0c8",
        (1, 1024, 1, IDENTIFIER, 0),
    ),
    (
        4096,
        "mkfs --uuid 67E55044-10B1-426F-9247-BB680E5FE0C8",
        (1, 1024, 1, IDENTIFIER, 0),
    ),
    (
        4096,
        "mkfs --uuid URN:UUID:67e55044-10b1-426f-9247-bb680e5fe0c8",
        (1, 1024, 1, IDENTIFIER, 0),
    ),
    (
        512,
        "mkfs --bsize 512 --journals 2 --journal-blocks 600 --groups 3 --uuid 67e5504410b1426f9247bb680e5fe0c8 --time 5",
        (2, 600, 3, IDENTIFIER, 5),
    ),
    (
        512,
        "mkfs --time 5 --uuid 67e5504410b1426f9247bb680e5fe0c8 --groups 3 --journal-blocks 600 --journals 2 --bsize 512",
        (2, 600, 3, IDENTIFIER, 5),
    ),
];

// The words of a `run`, and the schedule, the items, the time and the frames that they ask for.
const RUN: [(&str, (Option<u64>, Option<u64>, u64, Option<u32>)); 11] = [
    ("run", (None, None, 0, None)),
    ("run --schedule 0", (Some(0), None, 0, None)),
    (
        "run --schedule 9223372036854775807",
        (Some(9_223_372_036_854_775_807), None, 0, None),
    ),
    ("run --steps 1", (None, Some(1), 0, None)),
    ("run --steps 10000000", (None, Some(10_000_000), 0, None)),
    ("run --time 0", (None, None, 0, None)),
    (
        "run --time 9223372036854775807",
        (None, None, 9_223_372_036_854_775_807, None),
    ),
    ("run --frames 512", (None, None, 0, Some(512))),
    ("run --frames 4096", (None, None, 0, Some(4096))),
    (
        "run --schedule 1 --steps 2 --time 3 --frames 513",
        (Some(1), Some(2), 3, Some(513)),
    ),
    (
        "run --frames 513 --steps 2 --schedule 1 --time 3",
        (Some(1), Some(2), 3, Some(513)),
    ),
];

// The words of a `load`, and the number and the items that they ask for.
const LOAD: [(&str, (u64, Option<u64>)); 5] = [
    ("load 7", (7, None)),
    ("load 0", (0, None)),
    (
        "load 9223372036854775807",
        (9_223_372_036_854_775_807, None),
    ),
    ("load 7 --steps 1", (7, Some(1))),
    ("load 7 --steps 10000000", (7, Some(10_000_000))),
];

// The size of the disk's blocks, words of no form that no row can have, and the place of the first wrong one.
const WRONG: [(u32, &str, u32); 6] = [
    (4096, " run", 1),
    (4096, "", 1),
    (4096, "run ", 2),
    (256, "mkfs --bsize 256", 3),
    (8192, "mkfs --bsize 8192", 3),
    (4096, "run --steps ", 3),
];

fn expect(
    rt: &impl Abort,
    alloc: Global,
    block_size: u32,
    text: &str,
    want: Result<Command, Usage>,
) -> Result<(), Fail> {
    let mut words = Vec::new(alloc);
    for word in text.split(' ') {
        words.push(String::from_str(alloc, word)?)?;
    }
    assert_eq!(rt; read_words(&words, block_size), want, "{text}");
    Ok(())
}

#[test]
fn words_of_make(rt: HostRuntime) -> Result<(), Fail> {
    for (block_size, text, (journals, journal_blocks, groups, uuid, time)) in MAKE {
        let make = MakeWords {
            journals,
            journal_blocks,
            groups,
            uuid,
            time,
        };
        expect(&rt, rt.alloc(), block_size, text, Ok(Command::Make(make)))?;
    }
    Ok(())
}

#[test]
fn words_of_run(rt: HostRuntime) -> Result<(), Fail> {
    for (text, (schedule, steps, time, frames)) in RUN {
        let run = RunWords {
            schedule,
            steps,
            time,
            frames,
        };
        expect(&rt, rt.alloc(), 4096, text, Ok(Command::Run(run)))?;
    }
    Ok(())
}

#[test]
fn words_of_load(rt: HostRuntime) -> Result<(), Fail> {
    for (text, (number, steps)) in LOAD {
        let load = LoadWords { number, steps };
        expect(&rt, rt.alloc(), 4096, text, Ok(Command::Load(load)))?;
    }
    Ok(())
}

#[test]
fn words_without_options(rt: HostRuntime) -> Result<(), Fail> {
    expect(&rt, rt.alloc(), 4096, "replay", Ok(Command::Replay))?;
    expect(&rt, rt.alloc(), 4096, "show", Ok(Command::Show))
}

#[test]
fn words_of_no_form(rt: HostRuntime) -> Result<(), Fail> {
    for (block_size, text, word) in WRONG {
        expect(&rt, rt.alloc(), block_size, text, Err(Usage { word }))?;
    }
    assert_eq!(rt; read_words(&[], 4096), Err(Usage { word: 1 }));
    Ok(())
}

#[test]
fn defaults_of_a_run(rt: HostRuntime) {
    let run = RunWords {
        schedule: None,
        steps: None,
        time: 0,
        frames: None,
    };
    assert_eq!(rt; run.steps_or_default(), 1_000_000);
    assert_eq!(rt; run.frames_or_default(), 1024);
    let run = RunWords {
        schedule: None,
        steps: Some(3),
        time: 0,
        frames: Some(512),
    };
    assert_eq!(rt; run.steps_or_default(), 3);
    assert_eq!(rt; run.frames_or_default(), 512);
    let load = LoadWords {
        number: 7,
        steps: None,
    };
    assert_eq!(rt; load.steps_or_default(), 1_000_000);
    let load = LoadWords {
        number: 7,
        steps: Some(10),
    };
    assert_eq!(rt; load.steps_or_default(), 10);
}

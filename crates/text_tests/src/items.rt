// How each item of a trace is written, line by line.
use dlm_modes::MailWord;
use file_tree::{Call, Content, Name, Path, Reply};
use glock_names::{LockName, State};
use std::alloc::Global;
use std::process::Abort;
use std::test::Fail;
use trace_text::{TraceItem, append_item, print};

fn lock_item(place: usize) -> TraceItem {
    let lock = LockName {
        kind: 2,
        number: 537,
    };
    match place {
        0 => TraceItem::Ask {
            node: 1,
            lock,
            state: State::Ex,
        },
        1 => TraceItem::Grant {
            node: 2,
            lock,
            state: State::Sh,
        },
        2 => TraceItem::Callback {
            node: 3,
            lock: LockName { kind: 1, number: 3 },
            state: State::Df,
        },
        _ => TraceItem::Down {
            node: 8,
            lock: LockName {
                kind: 3,
                number: u64::MAX,
            },
            state: State::Un,
        },
    }
}

fn mail_word(place: usize) -> MailWord {
    match place {
        0 => MailWord::Request,
        1 => MailWord::Convert,
        2 => MailWord::Down,
        3 => MailWord::Grant,
        4 => MailWord::Callback,
        5 => MailWord::Report,
        6 => MailWord::End,
        _ => MailWord::View,
    }
}

fn disk_item(place: usize) -> TraceItem {
    match place {
        0 => TraceItem::Read { node: 1, block: 19 },
        1 => TraceItem::WriteLog { node: 2, block: 26 },
        2 => TraceItem::WriteHead {
            node: 3,
            block: 30,
            sequence: 2,
            upto: 1,
        },
        3 => TraceItem::WriteClean {
            node: 4,
            block: 31,
            sequence: 10,
            upto: 0,
        },
        4 => TraceItem::WriteHome { node: 5, block: 17 },
        5 => TraceItem::WriteReplay {
            node: 6,
            block: 131_071,
        },
        6 => TraceItem::Barrier { node: 7 },
        _ => TraceItem::Commit {
            node: 8,
            sequence: 4,
            upto: 5,
        },
    }
}

fn node_item(place: usize) -> TraceItem {
    match place {
        0 => TraceItem::Join { node: 8 },
        1 => TraceItem::Full {
            node: 1,
            need: 20,
            free: 7,
        },
        2 => TraceItem::Crash { node: 2 },
        3 => TraceItem::Withdraw {
            node: 3,
            before: 0,
            after: 1,
        },
        4 => TraceItem::Fence { node: 4 },
        5 => TraceItem::View { generation: 100 },
        6 => TraceItem::Recovered { node: 5, by: 6 },
        7 => TraceItem::Lost { node: 7, kept: 12 },
        _ => TraceItem::Unmount { node: 1 },
    }
}

// An answered call: a write of two bytes to a file, and a list of the root.
fn call_item(alloc: Global, place: usize) -> Result<TraceItem, Fail> {
    let client = Name::new(b"c2".as_slice().to_vec(alloc)?);
    let path = Path::parse(alloc, b"/a%20b")?;
    let bytes = Content::new(b"\x00\xff".as_slice().to_vec(alloc)?);
    Ok(match place {
        0 => TraceItem::Call {
            node: 1,
            client,
            number: 1,
            call: Call::Write(path, 7, bytes),
            reply: Reply::NoSpace,
        },
        1 => TraceItem::Call {
            node: 2,
            client,
            number: 12,
            call: Call::Read(path, 0, 2),
            reply: Reply::Bytes(bytes),
        },
        _ => TraceItem::Call {
            node: 3,
            client,
            number: 100,
            call: Call::Sync,
            reply: Reply::Ok,
        },
    })
}

fn expect_line(rt: &impl Abort, alloc: Global, item: &TraceItem, want: &[u8]) -> Result<(), Fail> {
    let mut text = b"-".as_slice().to_vec(alloc)?;
    append_item(alloc, &mut text, item)?;
    assert_eq!(rt; text.as_slice().split_at(1).1, want);
    Ok(())
}

const LOCK_ITEMS: [&[u8]; 4] = [
    b"ask 1 2/537 ex",
    b"grant 2 2/537 sh",
    b"callback 3 1/3 df",
    b"down 8 3/18446744073709551615 un",
];

const MAILS: [&[u8]; 8] = [
    b"mail 1 2 request",
    b"mail 1 2 convert",
    b"mail 1 2 down",
    b"mail 1 2 grant",
    b"mail 1 2 callback",
    b"mail 1 2 report",
    b"mail 1 2 end",
    b"mail 1 2 view",
];

#[test]
fn locks_and_mail(rt: HostRuntime) -> Result<(), Fail> {
    for (i, want) in LOCK_ITEMS.iter().enumerate() {
        expect_line(&rt, rt.alloc(), &lock_item(i), want)?;
    }
    for (i, want) in MAILS.iter().enumerate() {
        let item = TraceItem::Mail {
            from: 1,
            to: 2,
            word: mail_word(i),
        };
        expect_line(&rt, rt.alloc(), &item, want)?;
    }
    Ok(())
}

const DISK_ITEMS: [&[u8]; 8] = [
    b"read 1 19",
    b"write 2 log 26",
    b"write 3 head 30 2 1",
    b"write 4 clean 31 10 0",
    b"write 5 home 17",
    b"write 6 replay 131071",
    b"barrier 7",
    b"commit 8 4 5",
];

const NODE_ITEMS: [&[u8]; 9] = [
    b"join 8",
    b"full 1 20 7",
    b"crash 2",
    b"withdraw 3 0 1",
    b"fence 4",
    b"view 100",
    b"recovered 5 6",
    b"lost 7 12",
    b"unmount 1",
];

const CALL_ITEMS: [&[u8]; 3] = [
    b"call 1 c2 1 write /a%20b 7 00ff = nospace",
    b"call 2 c2 12 read /a%20b 0 2 = data 00ff",
    b"call 3 c2 100 sync = ok",
];

#[test]
fn disks_nodes_and_calls(rt: HostRuntime) -> Result<(), Fail> {
    for (i, want) in DISK_ITEMS.iter().enumerate() {
        expect_line(&rt, rt.alloc(), &disk_item(i), want)?;
    }
    for (i, want) in NODE_ITEMS.iter().enumerate() {
        expect_line(&rt, rt.alloc(), &node_item(i), want)?;
    }
    for (i, want) in CALL_ITEMS.iter().enumerate() {
        expect_line(&rt, rt.alloc(), &call_item(rt.alloc(), i)?, want)?;
    }
    Ok(())
}

#[test]
fn a_trace_has_one_item_a_line(rt: HostRuntime) -> Result<(), Fail> {
    let a = rt.alloc();
    assert_eq!(rt; print(a, &[])?.len(), 0);
    let items = vec![in a; node_item(0), disk_item(0), call_item(a, 2)?, node_item(8)]?;
    assert_eq!(rt;
        print(a, &items)?.as_slice(),
        b"join 8\nread 1 19\ncall 3 c2 100 sync = ok\nunmount 1\n".as_slice()
    );
    Ok(())
}

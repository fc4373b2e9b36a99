ghost use Rattle.script_lang.specs.WellFormed.{IsWellFormed};

// What scripts are read as, and which one node can run, worked out by hand from the grammar.
use file_tree::{Call, Path, append_call};
use script_lang::{Armed, Fate, Line, Script, parse};
use std::alloc::Global;
use std::process::Abort;
use std::test::Fail;

type Names = &'static [&'static [u8]];

fn expect_path(rt: &impl Abort, path: &Path, names: Names) {
    assert_eq!(rt; path.names().len(), names.len());
    for (name, want) in path.names().iter().zip(names) {
        assert_eq!(rt; name.bytes(), *want);
    }
}

// A line of the first client, which has a call of this kind with these paths, numbers and content.
struct Want {
    line: &'static [u8],
    kind: &'static str,
    path: Names,
    to: Names,
    numbers: (u64, u32),
    content: &'static [u8],
}

// The kind of a call.
fn kind_of(call: &Call) -> &'static str {
    match call {
        Call::Create(_) => "create",
        Call::Mkdir(_) => "mkdir",
        Call::Unlink(_) => "unlink",
        Call::Rmdir(_) => "rmdir",
        Call::Read(_, _, _) => "read",
        Call::Dread(_, _, _) => "dread",
        Call::Write(_, _, _) => "write",
        Call::Truncate(_, _) => "truncate",
        Call::Stat(_) => "stat",
        Call::List(_) => "list",
        Call::Rename(_, _) => "rename",
        Call::Sync => "sync",
    }
}

fn expect_call(rt: &impl Abort, call: &Call, want: &Want) {
    assert_eq!(rt; kind_of(call), want.kind);
    match call {
        Call::Create(path) | Call::Mkdir(path) | Call::Unlink(path) => expect_path(
            rt, path, want.path,
        ),
        Call::Rmdir(path) | Call::Stat(path) | Call::List(path) => expect_path(rt, path, want.path),
        Call::Read(path, at, count) | Call::Dread(path, at, count) => {
            expect_path(rt, path, want.path);
            assert_eq!(rt; (*at, *count), want.numbers);
        }
        Call::Write(path, at, content) => {
            expect_path(rt, path, want.path);
            assert_eq!(rt; *at, want.numbers.0);
            assert_eq!(rt; content.bytes(), want.content);
        }
        Call::Truncate(path, size) => {
            expect_path(rt, path, want.path);
            assert_eq!(rt; *size, want.numbers.0);
        }
        Call::Rename(from, to) => {
            expect_path(rt, from, want.path);
            expect_path(rt, to, want.to);
        }
        Call::Sync => (),
    }
}

const CALLS: [Want; 25] = [
    Want {
        line: b"c: create /a",
        kind: "create",
        path: &[b"a"],
        to: &[],
        numbers: (0, 0),
        content: b"",
    },
    Want {
        line: b"c: create /%25%20%7f",
        kind: "create",
        path: &[b"% \x7f"],
        to: &[],
        numbers: (0, 0),
        content: b"",
    },
    Want {
        line: b"c: mkdir /a/b/...",
        kind: "mkdir",
        path: &[b"a", b"b", b"..."],
        to: &[],
        numbers: (0, 0),
        content: b"",
    },
    Want {
        line: b"c: unlink /!~",
        kind: "unlink",
        path: &[b"!~"],
        to: &[],
        numbers: (0, 0),
        content: b"",
    },
    Want {
        line: b"c: rmdir /",
        kind: "rmdir",
        path: &[],
        to: &[],
        numbers: (0, 0),
        content: b"",
    },
    Want {
        line: b"c: read /a 0 0",
        kind: "read",
        path: &[b"a"],
        to: &[],
        numbers: (0, 0),
        content: b"",
    },
    Want {
        line: b"c: read /my%20file 4294967296 16384",
        kind: "read",
        path: &[b"my file"],
        to: &[],
        numbers: (4_294_967_296, 16_384),
        content: b"",
    },
    Want {
        line: b"c: dread /a/b 10 7",
        kind: "dread",
        path: &[b"a", b"b"],
        to: &[],
        numbers: (10, 7),
        content: b"",
    },
    Want {
        line: b"c: dread / 4294967296 16384",
        kind: "dread",
        path: &[],
        to: &[],
        numbers: (4_294_967_296, 16_384),
        content: b"",
    },
    Want {
        line: b"c: write /a 0 00",
        kind: "write",
        path: &[b"a"],
        to: &[],
        numbers: (0, 0),
        content: b"\x00",
    },
    Want {
        line: b"c: write /a 5 00ff7a09",
        kind: "write",
        path: &[b"a"],
        to: &[],
        numbers: (5, 0),
        content: b"\x00\xffz\x09",
    },
    Want {
        line: b"c: write /a 4294967296 fill:61:3",
        kind: "write",
        path: &[b"a"],
        to: &[],
        numbers: (4_294_967_296, 0),
        content: b"aaa",
    },
    Want {
        line: b"c: write /a 1 fill:ff:1",
        kind: "write",
        path: &[b"a"],
        to: &[],
        numbers: (1, 0),
        content: b"\xff",
    },
    Want {
        line: b"c: truncate /a 0",
        kind: "truncate",
        path: &[b"a"],
        to: &[],
        numbers: (0, 0),
        content: b"",
    },
    Want {
        line: b"c: truncate /b 4294967296",
        kind: "truncate",
        path: &[b"b"],
        to: &[],
        numbers: (4_294_967_296, 0),
        content: b"",
    },
    Want {
        line: b"c: stat /",
        kind: "stat",
        path: &[],
        to: &[],
        numbers: (0, 0),
        content: b"",
    },
    Want {
        line: b"c: stat /%c8",
        kind: "stat",
        path: &[b"\xc8"],
        to: &[],
        numbers: (0, 0),
        content: b"",
    },
    Want {
        line: b"c: list /",
        kind: "list",
        path: &[],
        to: &[],
        numbers: (0, 0),
        content: b"",
    },
    Want {
        line: b"c: list /a",
        kind: "list",
        path: &[b"a"],
        to: &[],
        numbers: (0, 0),
        content: b"",
    },
    Want {
        line: b"c: rename /a /b",
        kind: "rename",
        path: &[b"a"],
        to: &[b"b"],
        numbers: (0, 0),
        content: b"",
    },
    Want {
        line: b"c: rename / /",
        kind: "rename",
        path: &[],
        to: &[],
        numbers: (0, 0),
        content: b"",
    },
    Want {
        line: b"c: rename /a/b /%20",
        kind: "rename",
        path: &[b"a", b"b"],
        to: &[b" "],
        numbers: (0, 0),
        content: b"",
    },
    Want {
        line: b"c: sync",
        kind: "sync",
        path: &[],
        to: &[],
        numbers: (0, 0),
        content: b"",
    },
    Want {
        line: b"c: sync\n",
        kind: "sync",
        path: &[],
        to: &[],
        numbers: (0, 0),
        content: b"",
    },
    Want {
        line: b"c: read /read 1 2\n",
        kind: "read",
        path: &[b"read"],
        to: &[],
        numbers: (1, 2),
        content: b"",
    },
];

// The script of a text that is one.
fn script_of(rt: &impl Abort, alloc: Global, text: &[u8]) -> Script
    ensures { IsWellFormed result }
{
    match parse(alloc, text) {
        Ok(script) => script,
        Err(refusal) => {
            assert!(rt; false, "refused: {refusal:?}");
            unreachable!()
        }
    }
}

const HEAD: &[u8] = b"nodes 1\nclient c on 1\n";

// The script has one line, which is this call.
fn expect_only_call(rt: &impl Abort, script: &Script, want: &Want) {
    assert_eq!(rt; script.lines.len(), 1);
    match &script.lines[0] {
        Line::Call { client: 0, call } => expect_call(rt, call, want),
        _ => assert!(rt; false, "a line of another kind"),
    }
}

// The script of the client with its calls as they are printed.
fn printed(alloc: Global, script: &Script) -> Result<Vec<u8>, Fail> {
    let mut text = HEAD.to_vec(alloc)?;
    for line in script.lines.as_slice() {
        if let Line::Call { call, .. } = line {
            text.extend_from_slice(b"c: ")?;
            append_call(alloc, &mut text, call)?;
            text.push(b'\n')?;
        }
    }
    Ok(text)
}

#[test]
fn calls(rt: HostRuntime) -> Result<(), Fail> {
    for want in &CALLS {
        let mut text = HEAD.to_vec(rt.alloc())?;
        text.extend_from_slice(want.line)?;
        let script = script_of(&rt, rt.alloc(), &text);
        expect_only_call(&rt, &script, want);
        let again = printed(rt.alloc(), &script)?;
        expect_only_call(&rt, &script_of(&rt, rt.alloc(), &again), want);
    }
    Ok(())
}

// What a line is, but for its call.
#[derive(Clone, Copy, Debug, PartialEq, Eq)]
enum Kind {
    Call(u32),
    Wait,
    Crash(u16),
    Join(u8),
}

fn kind_of_line(line: &Line) -> Kind {
    match line {
        Line::Call { client, call: _ } => Kind::Call(*client),
        Line::Wait => Kind::Wait,
        Line::Crash(nodes) => Kind::Crash(*nodes),
        Line::Join(node) => Kind::Join(*node),
    }
}

const WHOLE: &[u8] =
    b"nodes 8\nclient p on 1\nclient q2 on 8\ncrash 8 at 18446744073709551615 new\ncrash 1 at 1 old\ncrash 2 at 7 torn 4095\ncrash 3\nwait\nq2: sync\njoin 3\ncrash all\np: list /\n";

const CLIENTS: [(&[u8], u8); 2] = [(b"p", 1), (b"q2", 8)];

const ARMED: [Armed; 3] = [
    Armed {
        node: 8,
        write: 18_446_744_073_709_551_615,
        fate: Fate::New,
    },
    Armed {
        node: 1,
        write: 1,
        fate: Fate::Old,
    },
    Armed {
        node: 2,
        write: 7,
        fate: Fate::Torn(4095),
    },
];

// Node 3 has bit 3, and all nodes have bits 1 to 8.
const KINDS: [Kind; 6] = [
    Kind::Crash(8),
    Kind::Wait,
    Kind::Call(1),
    Kind::Join(3),
    Kind::Crash(510),
    Kind::Call(0),
];

#[test]
fn whole_script(rt: HostRuntime) {
    let script = script_of(&rt, rt.alloc(), WHOLE);
    assert_eq!(&rt; script.nodes, 8);
    assert_eq!(&rt; script.clients.len(), CLIENTS.len());
    for (client, (name, node)) in script.clients.iter().zip(&CLIENTS) {
        assert_eq!(&rt; client.name.bytes(), *name);
        assert_eq!(&rt; client.node, *node);
    }
    assert_eq!(&rt; script.armed.as_slice(), ARMED.as_slice());
    assert_eq!(&rt; script.lines.len(), KINDS.len());
    for (line, kind) in script.lines.iter().zip(&KINDS) {
        assert_eq!(&rt; kind_of_line(line), *kind);
    }
}

// What sources and sinks give and take call by call, worked out by hand.
ghost use Rattle.std.specs.Prelude.{◌≡◌, ◌+◌, Some};

use std::alloc::Global;
use std::fs::File;
use std::test::Fail;
use std::{env, fs, process};
use stream_io::{Failed, MemSink, MemSource, Sink, Source, StdSink, StdSource, put_all};

// What each of six calls gives with room for four bytes, and the faults so far.
const TAKES: [(Result<&[u8], Failed>, u64); 6] = [
    (Ok(b"hell"), 0),
    (Err(Failed), 1),
    (Ok(b"o wo"), 1),
    (Ok(b"rld"), 1),
    (Ok(b""), 1),
    (Err(Failed), 2),
];

#[test]
fn a_source_is_taken_in_pieces(rt: HostRuntime) -> Result<(), Fail> {
    let a = rt.alloc();
    let bytes = b"hello world".as_slice().to_vec(a)?;
    let mut source = MemSource::new(bytes, vec![in a; 6, 2]?);
    for (want, faults) in TAKES {
        let mut into = [0; 4];
        let taken = match source.take(&mut into) {
            Ok(count) => Ok(&into[..count]),
            Err(fault) => Err(fault),
        };
        assert_eq!(rt; taken, want);
        assert_eq!(rt; source.faults(), faults);
    }
    Ok(())
}

#[test]
fn a_sink_fails_at_its_listed_call(rt: HostRuntime) -> Result<(), Fail> {
    let a = rt.alloc();
    let mut sink = MemSink::new(a, vec![in a; 2]?);
    assert_eq!(rt; sink.put(b"ab"), Ok(2));
    assert_eq!(rt; sink.put(b"cd"), Err(Failed));
    assert_eq!(rt; (sink.faults(), sink.bytes()), (1, b"ab".as_slice()));
    assert_eq!(rt; put_all(&mut sink, b"ef"), Ok(()));
    assert_eq!(rt; put_all(&mut sink, b""), Ok(()));
    assert_eq!(rt; (sink.faults(), sink.bytes()), (1, b"abef".as_slice()));
    Ok(())
}

// A sink that takes one byte a call, and fails once it has so many.
struct Narrow {
    bytes: Vec<u8>,
    room: usize,
    faults: u64,
}

impl Sink for Narrow {
    ghost contents = { λ s. Some s.bytes.items };

    ghost faults = { λ s. s.faults };

    fn put(&mut self, bytes: &[u8]) -> Result<usize, Failed> {
        let Some(first) = bytes.first() else {
            return Ok(0);
        };
        if self.bytes.len() >= self.room || self.bytes.push(*first).is_err() {
            self.faults = self.faults.saturating_add(1);
            return Err(Failed);
        }
        Ok(1)
    }

    fn faults(&self) -> u64 {
        self.faults
    }
}

// What a sink with so much room keeps of `abcd`, how often it fails, and whether all was put.
fn put_narrow(alloc: Global, room: usize) -> (Vec<u8>, u64, bool) {
    let mut sink = Narrow {
        bytes: Vec::new(alloc),
        room,
        faults: 0,
    };
    let put = put_all(&mut sink, b"abcd").is_ok();
    let Narrow {
        bytes,
        room: _,
        faults,
    } = sink;
    (bytes, faults, put)
}

#[test]
fn all_is_put_byte_by_byte(rt: HostRuntime) {
    let wants: [(usize, &[u8], u64, bool); 4] = [
        (0, b"", 1, false),
        (2, b"ab", 1, false),
        (4, b"abcd", 0, true),
        (9, b"abcd", 0, true),
    ];
    for (room, want, faults, all) in wants {
        let (bytes, failed, put) = put_narrow(rt.alloc(), room);
        assert_eq!(rt; bytes.as_slice(), want);
        assert_eq!(rt; (failed, put), (faults, all));
    }
}

// What is put into a file's sink is taken from its source; a file that is open for the other way fails.
#[test]
fn files_are_put_and_taken(rt: HostRuntime) -> Result<(), Fail> {
    let name = format!(in rt.alloc(); "stream_io-{}", process::id(rt.process()))?;
    let path = env::temp_dir(&rt)?.join(rt.alloc(), name.as_str())?;
    let path = path.as_str();
    let mut sink = StdSink::new(File::create(&rt, path)?);
    assert_eq!(rt; put_all(&mut sink, b"hello"), Ok(()));
    let mut taken = [0; 8];
    let mut source = StdSource::new(File::open(&rt, path)?);
    assert_eq!(rt; source.take(&mut taken), Ok(5));
    assert_eq!(rt; &taken[..5], b"hello".as_slice());
    assert_eq!(rt; source.take(&mut taken), Ok(0));
    let mut wrong_sink = StdSink::new(File::open(&rt, path)?);
    assert_eq!(rt; wrong_sink.put(b"x"), Err(Failed));
    let mut wrong_source = StdSource::new(File::create(&rt, path)?);
    assert_eq!(rt; wrong_source.take(&mut taken), Err(Failed));
    assert_eq!(rt; (sink.faults(), source.faults()), (0, 0));
    assert_eq!(rt; (wrong_sink.faults(), wrong_source.faults()), (1, 1));
    fs::remove_file(&rt, path)?;
    Ok(())
}

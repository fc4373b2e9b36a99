// Records that are put into areas, and bitmaps, against bytes that were worked out apart.
ghost use Rattle.gfs2_layout.specs.Putting.{IsEntryOf};

use crate::reading::{Part, laid_over};
use gfs2_layout::{
    Dirent, Inum, find_record, is_area, least_length, pack, put_record, put_state, state_at,
};
use std::process::Abort;

// The two numbers of the records that stand there, and of the one that is put.
const OLD: &[u8] = b"\x00\x00\x00\x00\x00\x00\x00\x01\x00\x00\x00\x00\x00\x00\x00\x10";

const NEW: &[u8] = b"\x01\x02\x03\x04\x05\x06\x07\x08\x11\x12\x13\x14\x15\x16\x17\x18";

// What stands in an area of 160 bytes, which are 165 else; the name that is put; and what is written, if it
// has room. The hashes are zlib's crc32.
const ROWS: [(&[Part], &[u8], bool, &[Part]); 9] = [
    // An unused record is taken whole, and what is behind the name stays.
    (
        &[
            (
                0,
                b"\x00\x00\x00\x00\x00\x00\x00\x00\x00\x00\x00\x00\x00\x00\x00\x07",
            ),
            (16, b"\x02\x98\x4f\x45\x00\xa0\x00\x04\x00\x08\x00\x00"),
            (40, b"gone"),
        ],
        b"a",
        true,
        &[
            (0, NEW),
            (16, b"\xe8\xb7\xbe\x43\x00\xa0\x00\x01\x00\x08\x00\x09"),
            (28, &[0; 12]),
            (40, b"a"),
        ],
    ),
    // One in use is cut to its least length.
    (
        &[
            (0, OLD),
            (16, b"\x0e\xd4\xe2\x42\x00\xa0\x00\x01\x00\x04\x00\x00"),
            (40, b"."),
        ],
        b"ab",
        true,
        &[
            (20, b"\x00\x30"),
            (48, NEW),
            (64, b"\x9e\x83\x48\x6d\x00\x70\x00\x02\x00\x08\x00\x09"),
            (76, &[0; 12]),
            (88, b"ab"),
        ],
    ),
    // A name of 8 bytes takes 48, one of 9 takes 56.
    (
        &[
            (0, OLD),
            (16, b"\x9a\xe0\xda\xaf\x00\xa0\x00\x08\x00\x08\x00\x00"),
            (40, b"12345678"),
        ],
        b"123456789",
        true,
        &[
            (20, b"\x00\x30"),
            (48, NEW),
            (64, b"\xcb\xf4\x39\x26\x00\x70\x00\x09\x00\x08\x00\x09"),
            (76, &[0; 12]),
            (88, b"123456789"),
        ],
    ),
    // The first has no room behind its least length.
    (
        &[
            (0, OLD),
            (16, b"\x0e\xd4\xe2\x42\x00\x30\x00\x01\x00\x04\x00\x00"),
            (40, b"."),
            (48, OLD),
            (64, b"\x96\x08\x16\x1c\x00\x70\x00\x02\x00\x04\x00\x00"),
            (88, b".."),
        ],
        b"ab",
        true,
        &[
            (68, b"\x00\x30"),
            (96, NEW),
            (112, b"\x9e\x83\x48\x6d\x00\x40\x00\x02\x00\x08\x00\x09"),
            (124, &[0; 12]),
            (136, b"ab"),
        ],
    ),
    // The first has just enough, and the second more.
    (
        &[
            (0, OLD),
            (16, b"\x0e\xd4\xe2\x42\x00\x60\x00\x01\x00\x04\x00\x00"),
            (40, b"."),
            (96, &[0; 16]),
            (112, b"\x00\x00\x00\x00\x00\x40\x00\x00\x00\x08\x00\x00"),
        ],
        b"x",
        true,
        &[
            (20, b"\x00\x30"),
            (48, NEW),
            (64, b"\x8c\xdc\x16\x83\x00\x30\x00\x01\x00\x08\x00\x09"),
            (76, &[0; 12]),
            (88, b"x"),
        ],
    ),
    // The first has one byte too few; the second, of an odd length, is unused.
    (
        &[
            (0, OLD),
            (16, b"\x0e\xd4\xe2\x42\x00\x5f\x00\x01\x00\x04\x00\x00"),
            (40, b"."),
            (
                95,
                b"\x00\x00\x00\x00\x00\x00\x00\x02\x00\x00\x00\x00\x00\x00\x00\x00",
            ),
            (111, b"\x3f\x5d\xd4\xe5\x00\x41\x00\x03\x00\x08\x00\x00"),
            (135, b"old"),
        ],
        b"x",
        true,
        &[
            (95, NEW),
            (111, b"\x8c\xdc\x16\x83\x00\x41\x00\x01\x00\x08\x00\x09"),
            (123, &[0; 12]),
            (135, b"x"),
        ],
    ),
    // An unused first one is one byte too short.
    (
        &[
            (0, &[0; 16]),
            (16, b"\x00\x00\x00\x00\x00\x2f\x00\x00\x00\x08\x00\x00"),
            (47, OLD),
            (63, b"\x96\x08\x16\x1c\x00\x71\x00\x02\x00\x04\x00\x00"),
            (87, b".."),
        ],
        b"x",
        true,
        &[
            (67, b"\x00\x30"),
            (95, NEW),
            (111, b"\x8c\xdc\x16\x83\x00\x41\x00\x01\x00\x08\x00\x09"),
            (123, &[0; 12]),
            (135, b"x"),
        ],
    ),
    // The first has not even its least length.
    (
        &[
            (0, OLD),
            (16, b"\xed\x82\xcd\x11\x00\x2c\x00\x04\x00\x08\x00\x00"),
            (40, b"abcd"),
            (
                44,
                b"\x00\x00\x00\x00\x00\x00\x00\x03\x00\x00\x00\x00\x00\x00\x00\x12",
            ),
            (60, b"\x08\x33\x7b\xb5\x00\x74\x00\x04\x00\x08\x00\x00"),
            (84, b"efgh"),
        ],
        b"x",
        true,
        &[
            (64, b"\x00\x30"),
            (92, NEW),
            (108, b"\x8c\xdc\x16\x83\x00\x44\x00\x01\x00\x08\x00\x09"),
            (120, &[0; 12]),
            (132, b"x"),
        ],
    ),
    // No record has room.
    (
        &[
            (0, OLD),
            (16, b"\x0e\xd4\xe2\x42\x00\x30\x00\x01\x00\x04\x00\x00"),
            (40, b"."),
            (48, OLD),
            (64, b"\x96\x08\x16\x1c\x00\x70\x00\x02\x00\x04\x00\x00"),
            (88, b".."),
        ],
        b"aaaaaaaaaaaaaaaaaazzzzzzz",
        false,
        &[],
    ),
];

// Its length is not looked at.
fn entry_of(rt: &impl Abort, name: &[u8]) -> Dirent
    ensures { IsEntryOf result name.now }
{
    assert!(rt; !name.is_empty() && name.len() <= 255);
    Dirent {
        inum: Inum {
            number: 0x0102_0304_0506_0708,
            address: 0x1112_1314_1516_1718,
        },
        hash: crc_words::crc32(name),
        rec_len: 7,
        name_len: name.len() as u16,
        kind: 8,
        rahead: 9,
    }
}

#[test]
fn records_are_put_into_the_first_with_room(rt: HostRuntime) {
    for (before, name, fits, after) in ROWS {
        let mut area: [u8; 160] = laid_over(&rt, 165, before, &[]);
        assert!(rt; is_area(&area), "at {name:?}");
        let entry = entry_of(&rt, name);
        assert_eq!(rt; put_record(&mut area, &entry, name), fits, "at {name:?}");
        let want: [u8; 160] = laid_over(&rt, 165, before, after);
        assert_eq!(rt; area, want, "at {name:?}");
    }
}

// Names are put one after another until there is no room; each is found at its place.
const NAMES: [(&[u8], Option<u32>); 4] = [
    (b"first", Some(0)),
    (b"the second", Some(48)),
    (b"3", Some(104)),
    (b"none", None),
];

#[test]
fn records_that_were_put_are_found(rt: HostRuntime) {
    let mut area: [u8; 160] = laid_over(&rt, 0, &[(20, b"\x00\xa0")], &[]);
    for (name, place) in NAMES {
        assert!(rt; is_area(&area));
        assert_eq!(rt; find_record(&area, name), None);
        let entry = entry_of(&rt, name);
        assert_eq!(rt; put_record(&mut area, &entry, name), place.is_some());
    }
    assert!(rt; is_area(&area));
    for (name, place) in NAMES {
        assert_eq!(rt; find_record(&area, name), place, "at {name:?}");
    }
    for (name_len, want) in [(1, 48), (8, 48), (9, 56), (255, 296), (65_535, 65_576)] {
        assert_eq!(rt; least_length(name_len), want);
    }
}

const BITMAP: [u8; 4] = *b"\xe4\x1b\x00\xff";

const STATES: [u8; 16] = [0, 1, 2, 3, 3, 2, 1, 0, 0, 0, 0, 0, 3, 3, 3, 3];

// A place, the state that is put there, and the bitmap after it.
const PUT: [(u32, u8, &[u8; 4]); 8] = [
    (0, 3, b"\xe7\x1b\x00\xff"),
    (3, 0, b"\x24\x1b\x00\xff"),
    (5, 1, b"\xe4\x17\x00\xff"),
    (7, 2, b"\xe4\x9b\x00\xff"),
    (8, 1, b"\xe4\x1b\x01\xff"),
    (11, 3, b"\xe4\x1b\xc0\xff"),
    (13, 0, b"\xe4\x1b\x00\xf3"),
    (15, 2, b"\xe4\x1b\x00\xbf"),
];

#[test]
fn states_are_read_and_put(rt: HostRuntime) {
    for (place, want) in (0u32..).zip(STATES) {
        assert!(rt; place < 16);
        assert_eq!(rt; state_at(&BITMAP, place), want, "at {place}");
    }
    for (place, state, want) in PUT {
        let mut bitmap = BITMAP;
        assert!(rt; place < 16 && state < 4);
        put_state(&mut bitmap, place, state);
        assert_eq!(rt; bitmap, *want, "at {place}");
    }
    assert_eq!(rt; pack([3, 0, 0, 0]), 3);
    assert_eq!(rt; pack([0, 1, 2, 3]), 0xe4);
    assert_eq!(rt; pack([1, 1, 3, 1]), 0x75);
}

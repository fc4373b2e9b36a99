// Each public call once, with ample memory.
use dlm_master::{Answer, Cause};
use dlm_modes::{Mode, ValueBlock, covers};
use dlm_rebuild::{Rebuild, master_of};
use glock_names::LockName;
use std::process::Abort;
use std::test::Fail;

static LOCK: LockName = LockName { kind: 2, number: 9 };

// Whom Python's `zlib.crc32` of the nine bytes makes the master, among the members 1; 1 and 2; 1 to 3; 1 to 8; and 0 to 15.
static MASTERS: [(u8, u64, [u8; 5]); 5] = [
    (1, 0, [1, 2, 2, 6, 13]),
    (2, 9, [1, 1, 2, 5, 12]),
    (2, 24, [1, 1, 3, 7, 14]),
    (3, 17, [1, 2, 2, 2, 9]),
    (2, 0x0102_0304_0506_0708, [1, 1, 1, 5, 4]),
];

static MEMBERS: [u16; 5] = [0b10, 0b110, 0b1110, 0b1_1111_1110, 0xffff];

#[test]
fn the_master_is_the_one_at_the_place_of_the_checksum(rt: HostRuntime) {
    assert_eq!(rt; master_of(0, LOCK), None);
    for (kind, number, masters) in MASTERS {
        for place in 0..5usize {
            let master = master_of(MEMBERS[place], LockName { kind, number });
            assert_eq!(rt; master, Some(masters[place]), "{kind}/{number}");
        }
    }
}

fn report(rebuild: &mut Rebuild, node: u8, mode: Mode) -> bool {
    !rebuild.waits(node, LOCK) && rebuild.report(node, LOCK, mode, ValueBlock::new()).is_ok()
}

fn request(rebuild: &mut Rebuild, node: u8, mode: Mode) -> Option<Answer> {
    if rebuild.waits(node, LOCK) {
        return None;
    }
    match rebuild.held(node, LOCK) {
        None => rebuild.request(node, LOCK, mode).ok(),
        Some(_) => None,
    }
}

fn convert(rebuild: &mut Rebuild, node: u8, mode: Mode) -> Option<Answer> {
    if rebuild.waits(node, LOCK) {
        return None;
    }
    match rebuild.held(node, LOCK) {
        Some(had) if covers(mode, had) => rebuild.convert(node, LOCK, mode).ok(),
        _ => None,
    }
}

fn down(rebuild: &mut Rebuild, node: u8, mode: Mode) -> bool {
    if rebuild.waits(node, LOCK) {
        return false;
    }
    match rebuild.held(node, LOCK) {
        Some(had) if covers(had, mode) && !covers(mode, had) => {
            rebuild.down(node, LOCK, mode);
            true
        }
        _ => false,
    }
}

#[test]
fn a_table_is_made_anew(rt: HostRuntime) -> Result<(), Fail> {
    let waits = Some(Answer::Waiting(Cause::Rebuild));
    let mut rebuild = Rebuild::new(rt.alloc(), 3, 0b110);
    assert!(rt; report(&mut rebuild, 1, Mode::Ex));
    assert!(rt; down(&mut rebuild, 1, Mode::Pr));
    assert!(rt; report(&mut rebuild, 2, Mode::Cw));
    assert!(rt; report(&mut rebuild, 2, Mode::Nl));
    assert_eq!(rt; rebuild.held(2, LOCK), None);
    assert_eq!(rt; request(&mut rebuild, 2, Mode::Pr), waits);
    assert_eq!(rt; convert(&mut rebuild, 1, Mode::Ex), waits);
    rebuild.blocked(1 << 3);
    rebuild.end(1);
    assert!(rt; !rebuild.is_done());
    let Err(mut rebuild) = rebuild.complete() else {
        return Err(Fail::from("complete before node 2 has ended"));
    };
    rebuild.end(2);
    let Ok(master) = rebuild.complete() else {
        return Err(Fail::from("not complete"));
    };
    assert_eq!(rt; master.generation(), 3);
    assert_eq!(rt; master.waiting(), 1 << 3);
    assert_eq!(rt; master.held(1, LOCK), Some(Mode::Pr));
    assert!(rt; master.waits(1, LOCK));
    assert!(rt; master.waits(2, LOCK));
    assert_eq!(rt; master.lock_at(0), Some(LOCK));
    assert_eq!(rt; master.lock_at(1), None);
    Ok(())
}

// What no clause says: the blocks that calls in a row leave, worked out by hand, and a real file.
ghost use Rattle.std.specs.Prelude.{◌≡◌, ◌<◌, ◌≤◌, None, IfOk, length};
ghost use Rattle.shared_disk.specs.Disk.{flight_to, after_write, after_barrier, IsIdle};
ghost use Rattle.shared_disk.specs.Files.{file_state};
ghost use Rattle.shared_disk.specs.Memory.{memory_state};
ghost use Rattle.shared_disk.specs.Outcomes.{AreOfSize};

use shared_disk::{DiskError, FileDisk, MemDisk, OpenError, Outcome, Settle, SharedDisk};
use std::alloc::Global;
use std::fs::File;
use std::process::Abort;
use std::rt::Files;
use std::test::Fail;
use std::{env, fs, process};

// A write that succeeds.
fn put<D: SharedDisk>(rt: &impl Abort, disk: &mut D, node: u8, block: u64, bytes: &[u8])
    requires node { node ≤ 8 }
    requires block { block < (D.state disk.old).count }
    requires size { length bytes.now ≡ (D.state disk.old).size }
    requires free { flight_to ((D.state disk.old).in_flight node) block ≡ None }
    requires room { length ((D.state disk.old).in_flight node) < 512 }
    ensures { D.state disk.new ≡ after_write (D.state disk.old) node block bytes.now }
{
    assert!(rt; disk.write(node, block, bytes).is_ok());
}

// A barrier that succeeds.
fn flush<D: SharedDisk>(rt: &impl Abort, disk: &mut D, node: u8)
    requires { node ≤ 8 }
    ensures { D.state disk.new ≡ after_barrier (D.state disk.old) node }
{
    assert!(rt; disk.barrier(node).is_ok());
}

// What a read of a block of four bytes gives.
fn read_four<D: SharedDisk>(disk: &mut D, node: u8, block: u64) -> Result<[u8; 4], DiskError>
    requires node { node ≤ 8 }
    requires block { block < (D.state disk.old).count }
    requires size { (D.state disk.old).size ≡ 4 }
    ensures { D.state disk.new ≡ D.state disk.old }
{
    let mut into = [0; 4];
    match disk.read(node, block, &mut into) {
        Ok(()) => Ok(into),
        Err(error) => Err(error),
    }
}

// Three blocks of four bytes in memory.
fn three_blocks(
    alloc: Global,
    fails: Vec<u64>,
    outcomes: Vec<Outcome>,
    recorded: u32,
) -> Result<MemDisk, Fail>
    requires { AreOfSize 4 outcomes.items }
    ensures { IfOk result (λ d. (d.nodes.count ≡ 3) × (d.nodes.size ≡ 4) × IsIdle (memory_state d)) }
{
    let bytes = vec![in alloc; 1, 2, 3, 4, 5, 6, 7, 8, 9, 10, 11, 12]?;
    Ok(MemDisk::new(4, bytes, fails, outcomes, recorded)?)
}

// Node 2 writes the blocks 0 and 2 and is fenced; then these are the bytes of the disk.
fn check_fence(
    rt: &(impl Abort + AllocGlobal),
    order: Settle,
    outcomes: Vec<Outcome>,
    want: &[u8],
) -> Result<(), Fail>
    requires { AreOfSize 4 outcomes.items }
{
    let mut disk = three_blocks(rt.alloc(), Vec::new(rt.alloc()), outcomes, 100)?;
    put(rt, &mut disk, 2, 2, &[70; 4]);
    put(rt, &mut disk, 2, 0, &[60; 4]);
    assert_eq!(rt; read_four(&mut disk, 2, 2), Ok([70; 4]));
    assert_eq!(rt; disk.fence(2, order), Ok(()));
    assert_eq!(rt; read_four(&mut disk, 2, 2), Err(DiskError::Fenced));
    assert_eq!(rt; disk.barrier(2), Err(DiskError::Fenced));
    assert_eq!(rt; disk.admit(2), Ok(()));
    assert_eq!(rt; disk.barrier(2), Ok(()));
    assert_eq!(rt; (disk.faults(0), disk.faults(2)), (0, 0));
    assert_eq!(rt; disk.into_bytes().as_slice(), want);
    Ok(())
}

#[test]
fn fences_settle_by_outcomes_and_order(rt: HostRuntime) -> Result<(), Fail> {
    let a = rt.alloc();
    check_fence(
        &rt,
        Settle::Old,
        vec![in a]?,
        &[1, 2, 3, 4, 5, 6, 7, 8, 9, 10, 11, 12],
    )?;
    check_fence(
        &rt,
        Settle::New,
        vec![in a]?,
        &[60, 60, 60, 60, 5, 6, 7, 8, 70, 70, 70, 70],
    )?;
    check_fence(
        &rt,
        Settle::Torn(3),
        vec![in a]?,
        &[60, 60, 60, 4, 5, 6, 7, 8, 70, 70, 70, 12],
    )?;
    check_fence(
        &rt,
        Settle::Torn(4),
        vec![in a]?,
        &[60, 60, 60, 60, 5, 6, 7, 8, 70, 70, 70, 70],
    )?;
    check_fence(
        &rt,
        Settle::Old,
        vec![in a; Outcome::New]?,
        &[60, 60, 60, 60, 5, 6, 7, 8, 9, 10, 11, 12],
    )?;
    let eights = vec![in a; 8; 4]?;
    check_fence(
        &rt,
        Settle::Torn(1),
        vec![in a; Outcome::Bytes(eights)]?,
        &[8, 8, 8, 8, 5, 6, 7, 8, 70, 10, 11, 12],
    )?;
    let sevens = vec![in a; 7; 4]?;
    check_fence(
        &rt,
        Settle::New,
        vec![in a; Outcome::Old, Outcome::Bytes(sevens)]?,
        &[1, 2, 3, 4, 5, 6, 7, 8, 7, 7, 7, 7],
    )?;
    Ok(())
}

#[test]
fn a_write_is_seen_by_its_node_until_the_barrier(rt: HostRuntime) -> Result<(), Fail> {
    let a = rt.alloc();
    let mut disk = three_blocks(a, Vec::new(a), Vec::new(a), 0)?;
    put(&rt, &mut disk, 1, 1, &[50; 4]);
    assert_eq!(rt; read_four(&mut disk, 1, 1), Ok([50; 4]));
    assert_eq!(rt; read_four(&mut disk, 0, 1), Ok([5, 6, 7, 8]));
    put(&rt, &mut disk, 0, 1, &[40; 4]);
    flush(&rt, &mut disk, 1);
    assert_eq!(rt; read_four(&mut disk, 2, 1), Ok([50; 4]));
    assert_eq!(rt; read_four(&mut disk, 0, 1), Ok([40; 4]));
    let want = [1, 2, 3, 4, 50, 50, 50, 50, 9, 10, 11, 12];
    assert_eq!(rt; disk.into_bytes().as_slice(), want.as_slice());
    Ok(())
}

// Calls of each kind, of which the one with this number fails: which succeed, and the faults.
fn calls_but(alloc: Global, fails: u64) -> Result<([bool; 5], u64, u64), Fail> {
    let mut disk = three_blocks(alloc, vec![in alloc; fails]?, Vec::new(alloc), 9)?;
    let read = read_four(&mut disk, 1, 0).is_ok();
    let write = disk.write(1, 2, &[90; 4]).is_ok();
    let barrier = disk.barrier(1).is_ok();
    let fence = disk.fence(1, Settle::Old).is_ok();
    let admit = disk.admit(1).is_ok();
    Ok((
        [read, write, barrier, fence, admit],
        disk.faults(1),
        disk.faults(0),
    ))
}

#[test]
fn the_listed_call_fails_and_is_counted(rt: HostRuntime) -> Result<(), Fail> {
    let wants = [
        (1, [false, true, true, true, true], 1, 0),
        (2, [true, false, true, true, true], 1, 0),
        (3, [true, true, false, true, true], 1, 0),
        (4, [true, true, true, false, true], 0, 1),
        (5, [true, true, true, true, false], 0, 1),
        (6, [true, true, true, true, true], 0, 0),
    ];
    for (fails, succeed, of_node, of_run) in wants {
        assert_eq!(rt;
            calls_but(rt.alloc(), fails)?,
            (succeed, of_node, of_run),
            "at {fails}"
        );
    }
    Ok(())
}

// A file of two blocks of four bytes and a rest of two, opened.
fn two_blocks<R: Files<File = File> + AllocGlobal + Abort>(
    rt: &R,
    path: &str,
) -> Result<FileDisk, Fail>
    ensures { IfOk result (λ d. (d.count ≡ 2) × (d.size ≡ 4) × IsIdle (file_state d)) }
{
    fs::write(rt, path, [1u8, 2, 3, 4, 5, 6, 7, 8, 9, 10].as_slice())?;
    let disk = FileDisk::open(rt, rt.alloc(), path, 4)?;
    assert_eq!(rt; disk.blocks(), 2);
    Ok(disk)
}

// A barrier of node 1 brings its write to the file.
fn check_barrier(rt: &impl Abort, disk: &mut FileDisk)
    requires blocks { (disk.old.count ≡ 2) × (disk.old.size ≡ 4) }
    requires idle { IsIdle (file_state disk.old) }
{
    put(rt, disk, 1, 0, &[50; 4]);
    assert_eq!(rt; read_four(disk, 1, 0), Ok([50; 4]));
    assert_eq!(rt; read_four(disk, 3, 0), Ok([1, 2, 3, 4]));
    flush(rt, disk, 1);
    assert_eq!(rt; read_four(disk, 3, 0), Ok([50; 4]));
}

// Node 3 writes a block and is fenced.
fn check_file_fence(rt: &impl Abort, disk: &mut FileDisk, order: Settle)
    requires blocks { (disk.old.count ≡ 2) × (disk.old.size ≡ 4) }
    requires idle { IsIdle (file_state disk.old) }
{
    put(rt, disk, 3, 1, &[60; 4]);
    assert_eq!(rt; disk.fence(3, order), Ok(()));
    assert_eq!(rt; disk.barrier(3), Err(DiskError::Fenced));
}

// Node 2 has a write in flight.
fn put_sixty(rt: &impl Abort, disk: &mut FileDisk)
    requires blocks { (disk.old.count ≡ 2) × (disk.old.size ≡ 4) }
    requires idle { IsIdle (file_state disk.old) }
    ensures { (disk.new.count ≡ 2) × (disk.new.size ≡ 4) }
{
    put(rt, disk, 2, 1, &[60; 4]);
}

// A file that has lost its blocks since it was opened: reads fail, and a fence that has to read does.
fn check_lost_blocks(rt: &impl Abort, disk: &mut FileDisk)
    requires { (disk.old.count ≡ 2) × (disk.old.size ≡ 4) }
{
    assert_eq!(rt; read_four(disk, 1, 1), Err(DiskError::Failed));
    assert_eq!(rt; disk.fence(2, Settle::Torn(1)), Err(DiskError::Failed));
    assert_eq!(rt; (disk.faults(0), disk.faults(1), disk.faults(2)), (1, 1, 0));
    assert_eq!(rt; read_four(disk, 2, 1), Ok([60; 4]));
}

#[test]
fn a_file_keeps_what_was_settled(rt: HostRuntime) -> Result<(), Fail> {
    let name = format!(in rt.alloc(); "shared-disk-test-{}", process::id(rt.process()))?;
    let path = env::temp_dir(&rt)?.join(rt.alloc(), name.as_str())?;
    let text = path.as_str();
    assert_eq!(rt;
        FileDisk::open(&rt, rt.alloc(), text, 4).err(),
        Some(OpenError::Failed)
    );
    let wants = [
        (Settle::Old, [1, 2, 3, 4, 5, 6, 7, 8, 9, 10]),
        (Settle::New, [1, 2, 3, 4, 60, 60, 60, 60, 9, 10]),
        (Settle::Torn(1), [1, 2, 3, 4, 60, 6, 7, 8, 9, 10]),
        (Settle::Torn(7), [1, 2, 3, 4, 60, 60, 60, 60, 9, 10]),
    ];
    for (order, want) in wants {
        check_file_fence(&rt, &mut two_blocks(&rt, text)?, order);
        assert_eq!(rt;
            fs::read(&rt, text)?.as_slice(),
            want.as_slice(),
            "at {order:?}"
        );
    }
    check_barrier(&rt, &mut two_blocks(&rt, text)?);
    assert_eq!(rt;
        fs::read(&rt, text)?.as_slice(),
        [50, 50, 50, 50, 5, 6, 7, 8, 9, 10].as_slice()
    );
    let mut lost = two_blocks(&rt, text)?;
    put_sixty(&rt, &mut lost);
    fs::write(&rt, text, [1u8, 2].as_slice())?;
    check_lost_blocks(&rt, &mut lost);
    fs::remove_file(&rt, text)?;
    Ok(())
}

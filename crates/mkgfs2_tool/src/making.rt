ghost use Rattle.std.specs.Prelude.{◌≡◌, ◌+◌, ◌<◌, ◌≤◌, ℕ, Option, List, [], false, length, OnOk, OnErr, IfOk, IfErr};
ghost use Rattle.std.specs.List.{AllByRecursion};
ghost use Rattle.std.specs.Prelude.{◌≢◌, IsTrue};
ghost use Rattle.shared_disk.specs.Disk.{DiskState, Operation, read_gives};
ghost use Rattle.mkgfs2_tool.specs.Blocks.{IsGroupList, new_block};
ghost use Rattle.mkgfs2_tool.specs.Making.{IsFitting, IsFaultOf};
ghost use Rattle.mkgfs2_tool.specs.Outcomes.{IsMadeUpTo, IsBegun, IsMade, PlanEnding, Ending, IsRoom};
ghost use Rattle.mkgfs2_tool.specs.declared.plan.Plan.{Plan};
ghost use Rattle.gfs2_layout.specs.Device.{IsBlockSize};
ghost use Rattle.profile_limits.specs.Limits.{most_blocks};

use crate::device::{put_in_flight, settle};
use crate::laws::new_images_stand;
use crate::options::{MakeFault, MakeOptions, bad_option};
use crate::plan::Plan;
use shared_disk::{SharedDisk, read_block};
use std::alloc::{AllocError, Global};

// At most so many writes of a node are in flight.
const MOST_IN_FLIGHT: u32 = 512;

// Makes room for one more write, by a barrier where as many are in flight as may be. Gives how many are in flight.
fn make_room<D: SharedDisk>(disk: &mut D, in_flight: u32) -> Result<u32, MakeFault>
    requires count { length ((D.state disk.old).in_flight 0) ≡ in_flight }
    ensures room { IfOk result (λ n. (n < 512) × (length ((D.state disk.new).in_flight 0) ≡ n)) }
    ensures same { (D.state disk.new).count ≡ (D.state disk.old).count }
    ensures size { (D.state disk.new).size ≡ (D.state disk.old).size }
    ensures below { (b : ℕ) → AllByRecursion (λ f. f.block < b) ((D.state disk.old).in_flight 0) → AllByRecursion (λ f. f.block < b) ((D.state disk.new).in_flight 0) }
    ensures made { (p : Plan) (old : DiskState) (list : Option (List Operation)) (b : ℕ) → IsMadeUpTo p old (D.state disk.old) list (D.list disk.old) b
        → IsMadeUpTo p old (D.state disk.new) list (D.list disk.new) b }
    ensures cause { IfErr result (IsFaultOf (D.state disk.old).count (D.faults disk.old) (D.faults disk.new)) }
    ensures later { (j : ℕ) → D.faults disk.old j ≤ D.faults disk.new j }
{
    if in_flight < MOST_IN_FLIGHT {
        return Ok(in_flight);
    }
    settle(disk)?;
    Ok(0)
}

// Puts a block's new bytes in flight. Gives how many are in flight.
fn put<D: SharedDisk>(
    disk: &mut D,
    block: u64,
    bytes: &[u8],
    in_flight: u32,
) -> Result<u32, MakeFault>
    requires block { block < (D.state disk.old).count }
    requires size { length bytes.now ≡ (D.state disk.old).size }
    requires count { length ((D.state disk.old).in_flight 0) ≡ in_flight }
    requires below { AllByRecursion (λ f. f.block < block) ((D.state disk.old).in_flight 0) }
    ensures room { IfOk result (λ n. (n ≤ 512) × (length ((D.state disk.new).in_flight 0) ≡ n)) }
    ensures made { OnOk result ((p : Plan) (old : DiskState) (list : Option (List Operation)) → bytes.now ≡ new_block p block
        → (IsTrue old.tells → old.block_at block ≢ new_block p block) → block < old.count → IsMadeUpTo p old (D.state disk.old) list (D.list disk.old) block
        → IsMadeUpTo p old (D.state disk.new) list (D.list disk.new) (block + 1)) }
    ensures begun { (p : Plan) (old : DiskState) (list : Option (List Operation)) → bytes.now ≡ new_block p block
        → (IsTrue old.tells → old.block_at block ≢ new_block p block) → block < old.count → IsMadeUpTo p old (D.state disk.old) list (D.list disk.old) block
        → IsBegun p old (D.state disk.new) list (D.list disk.new) }
    ensures cause { IfErr result (IsFaultOf (D.state disk.old).count (D.faults disk.old) (D.faults disk.new)) }
    ensures later { (j : ℕ) → D.faults disk.old j ≤ D.faults disk.new j }
{
    let in_flight = make_room(disk, in_flight)?;
    put_in_flight(disk, block, bytes)?;
    Ok(in_flight + 1)
}

// Reads a block.
fn look<D: SharedDisk>(disk: &mut D, block: u64, found: &mut [u8]) -> Result<(), MakeFault>
    requires block { block < (D.state disk.old).count }
    requires size { length found.old ≡ (D.state disk.old).size }
    requires open { (D.state disk.old).is_fenced 0 ≡ false }
    ensures bytes { OnOk result (IsTrue (D.state disk.old).tells → found.new ≡ read_gives (D.state disk.old) 0 block) }
    ensures same { D.state disk.new ≡ D.state disk.old }
    ensures list { D.list disk.new ≡ D.list disk.old }
    ensures cause { IfErr result (IsFaultOf (D.state disk.old).count (D.faults disk.old) (D.faults disk.new)) }
    ensures later { (j : ℕ) → D.faults disk.old j ≤ D.faults disk.new j }
{
    match read_block(disk, 0, block, found) {
        Ok(()) => Ok(()),
        Err(rise) => Err(MakeFault::DeviceFault {
            block: Some(block),
            before: rise.before,
            after: rise.after,
        }),
    }
}

// Makes a block, which is written only where it does not read as it is to be. Gives how many writes are in flight.
fn make_block<D: SharedDisk>(
    disk: &mut D,
    block: u64,
    wanted: &[u8],
    found: &mut [u8],
    in_flight: u32,
) -> Result<u32, MakeFault>
    requires block { block < (D.state disk.old).count }
    requires wanted { length wanted.now ≡ (D.state disk.old).size }
    requires size { length found.old ≡ (D.state disk.old).size }
    requires open { (D.state disk.old).is_fenced 0 ≡ false }
    requires room { in_flight ≤ 512 }
    requires count { length ((D.state disk.old).in_flight 0) ≡ in_flight }
    requires below { AllByRecursion (λ f. f.block < block) ((D.state disk.old).in_flight 0) }
    ensures room { IfOk result (λ n. (n ≤ 512) × (length ((D.state disk.new).in_flight 0) ≡ n)) }
    ensures made { OnOk result ((p : Plan) (old : DiskState) (list : Option (List Operation)) → wanted.now ≡ new_block p block → block < old.count
        → IsMadeUpTo p old (D.state disk.old) list (D.list disk.old) block → IsMadeUpTo p old (D.state disk.new) list (D.list disk.new) (block + 1)) }
    ensures begun { (p : Plan) (old : DiskState) (list : Option (List Operation)) → wanted.now ≡ new_block p block → block < old.count
        → IsMadeUpTo p old (D.state disk.old) list (D.list disk.old) block → IsBegun p old (D.state disk.new) list (D.list disk.new) }
    ensures cause { IfErr result (IsFaultOf (D.state disk.old).count (D.faults disk.old) (D.faults disk.new)) }
    ensures later { (j : ℕ) → D.faults disk.old j ≤ D.faults disk.new j }
{
    look(disk, block, found)?;
    if *found == *wanted {
        return Ok(in_flight);
    }
    put(disk, block, wanted, in_flight)
}

// The bytes of the list of groups.
fn group_list(alloc: Global, plan: &Plan) -> Result<Vec<u8>, AllocError>
    requires { IsFitting plan.now }
    ensures { IfOk result (λ v. IsGroupList plan.now v.items) }
{
    let mut entries = Vec::with_capacity(alloc, 96 * plan.groups as usize)?;
    for group in 0..plan.groups {
        entries.extend_from_slice(&plan.entry_bytes(group))?;
    }
    Ok(entries)
}

// Makes all blocks, one after another.
fn make_blocks<D: SharedDisk>(
    disk: &mut D,
    plan: &Plan,
    entries: &[u8],
    wanted: &mut [u8],
    found: &mut [u8],
) -> Result<(), MakeFault>
    requires plan { IsFitting plan.now }
    requires size { plan.now.size ≡ (D.state disk.old).size }
    requires blocks { plan.now.count ≡ (D.state disk.old).count }
    requires entries { IsGroupList plan.now entries.now }
    requires wanted { length wanted.old ≡ plan.now.size }
    requires found { length found.old ≡ plan.now.size }
    requires idle { (D.state disk.old).in_flight 0 ≡ [] }
    ensures made { OnOk result (IsMade plan.now (D.state disk.old) (D.state disk.new) (D.list disk.old) (D.list disk.new)) }
    ensures begun { OnErr result (IsBegun plan.now (D.state disk.old) (D.state disk.new) (D.list disk.old) (D.list disk.new)) }
    ensures cause { IfErr result (IsFaultOf (D.state disk.old).count (D.faults disk.old) (D.faults disk.new)) }
    ensures later { (j : ℕ) → D.faults disk.old j ≤ D.faults disk.new j }
{
    // What is made stands for the empty directory, since its plan fits, and its time has 64 bits.
    new_images_stand();
    plan.time();
    let count = disk.blocks();
    let mut in_flight = 0;
    for block in 0..count {
        plan.put_block(wanted, block, entries);
        in_flight = make_block(disk, block, wanted, found, in_flight)?;
    }
    if in_flight > 0 {
        settle(disk)?;
    }
    Ok(())
}

// What making an image takes memory for: the list of groups, and room for a block as it is to be and as it is found.
#[derive(Drop)]
struct Room {
    entries: Vec<u8>,
    wanted: Vec<u8>,
    found: Vec<u8>,
}

fn take_memory(alloc: Global, plan: &Plan) -> Result<Room, AllocError>
    requires { IsFitting plan.now }
    ensures { IfOk result (IsRoom plan.now) }
{
    let size = plan.size as usize;
    Ok(Room {
        entries: group_list(alloc, plan)?,
        wanted: vec![in alloc; 0u8; size]?,
        found: vec![in alloc; 0u8; size]?,
    })
}

// Takes memory, and makes the image of a plan.
fn make_plan<D: SharedDisk>(alloc: Global, disk: &mut D, plan: &Plan) -> Result<(), MakeFault>
    requires plan { IsFitting plan.now }
    requires size { plan.now.size ≡ (D.state disk.old).size }
    requires blocks { plan.now.count ≡ (D.state disk.old).count }
    requires idle { (D.state disk.old).in_flight 0 ≡ [] }
    ensures ending { PlanEnding plan.now (D.state disk.old) (D.state disk.new) (D.list disk.old) (D.list disk.new) (D.faults disk.old) (D.faults disk.new) result }
    ensures later { (j : ℕ) → D.faults disk.old j ≤ D.faults disk.new j }
{
    let Ok(mut room) = take_memory(alloc, plan) else {
        return Err(MakeFault::NoMemory);
    };
    make_blocks(disk, plan, &room.entries, &mut room.wanted, &mut room.found)
}

/// Makes an image on a device of at most 131,072 blocks, in blocks of its size: a superblock, the resource groups, the
/// master directory with the list of groups and the directory of journals, an empty root, and clean journals; all other
/// blocks are zero. The options are looked at first, then whether it fits, and memory is taken before anything is written.
/// Each block is read, and is written only where it is not yet as it is to be; at most 512 writes are in flight.
pub fn make<D: SharedDisk>(
    alloc: Global,
    disk: &mut D,
    options: &MakeOptions,
) -> Result<(), MakeFault>
    requires size { IsBlockSize (D.state disk.old).size }
    requires small { (D.state disk.old).count ≤ most_blocks }
    requires idle { (D.state disk.old).in_flight 0 ≡ [] }
    ensures ending { Ending options.now (D.state disk.old) (D.state disk.new) (D.list disk.old) (D.list disk.new) (D.faults disk.old) (D.faults disk.new) result }
    ensures later { (j : ℕ) → D.faults disk.old j ≤ D.faults disk.new j }
{
    if let Some(opt) = bad_option(options) {
        return Err(MakeFault::BadOption(opt));
    }
    let plan = Plan::of(disk.block_size(), disk.blocks(), options);
    if !plan.fits() {
        return Err(MakeFault::TooSmall {
            needed: plan.needed(),
            found: plan.count,
        });
    }
    make_plan(alloc, disk, &plan)
}

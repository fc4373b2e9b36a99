ghost use Rattle.std.specs.Prelude.{◌≡◌, ◌/◌, ◌<◌, ℕ, length, unwrap_or};
ghost use Rattle.std.specs.List.{AllByRecursion};
ghost use Rattle.image_replays.specs.Replays.{put_by};
ghost use Rattle.peer_replay.specs.declared.planned.Plan.{Plan as PlanValue};
ghost use Rattle.replayed_blocks.specs.Rows.{FitRow, bytes_home};
ghost use Rattle.shared_disk.specs.Blocks.{block_in};
ghost use Rattle.shared_disk.specs.Disk.{with_value};

use drafts::Written;
use image_replays::Plan;

// Puts a block into the row.
fn put_block(row: &mut [u8], size: usize, block: u64, new: &[u8])
    requires size { length new.now ≡ size }
    requires within { block < length row.old / size }
    ensures length { length row.new ≡ length row.old }
    ensures blocks { (k : ℕ) → block_in size row.new k ≡ with_value (block_in size row.old) block new.now k }
{
    let from = block as usize * size;
    row[from..from + size].copy_from_slice(new);
}

// Puts these blocks into the row, from the last to the first.
fn put_home(row: &mut [u8], size: usize, home: &[Written])
    requires fit { FitRow (length row.old / size) size home.now }
    ensures length { length row.new ≡ length row.old }
    ensures blocks { (k : ℕ) → block_in size row.new k ≡ unwrap_or (bytes_home home.now k) (block_in size row.old k) }
{
    for done in 0..home.len() {
        let written = &home[home.len() - 1 - done];
        put_block(row, size, written.block, written.bytes.bytes());
    }
}

/// Puts what these plans write into the row of blocks, of so many bytes each, that an image is: of a block that several write that of the first of them.
/// It costs a copy of each.
pub fn put_plans(row: &mut [u8], size: usize, plans: &[Plan])
    requires { AllByRecursion (λ (p : PlanValue). FitRow (length row.old / size) size p.home.items) plans.now }
    ensures length { length row.new ≡ length row.old }
    ensures blocks { (k : ℕ) → block_in size row.new k ≡ unwrap_or (put_by plans.now k) (block_in size row.old k) }
{
    for done in 0..plans.len() {
        put_home(row, size, &plans[plans.len() - 1 - done].home);
    }
}

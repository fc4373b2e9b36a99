// Whether groups are such as a view has, and lie on a disk.
ghost use Rattle.std.specs.Prelude.{ℕ, ◌≡◌, ◌≤◌, ◌↔◌, IsTrue};
ghost use Rattle.std.specs.List.{AllByRecursion};
ghost use Rattle.gfs2_layout.specs.Device.{IsBlockSize};
ghost use Rattle.glock_names.specs.Views.{IsFit, Rise, end_of};
ghost use Rattle.lone_view.specs.Groups.{AreGroupsOn};

use gfs2_layout::superblock_block;
use glock_names::Group;
use profile_limits::{MOST_BLOCKS, MOST_GROUPS};

// Whether a group lies above the superblock, its data blocks behind its header and bitmap, and these have bits for them.
fn is_fit(group: &Group, size: u32) -> bool
    requires { IsBlockSize size }
    ensures { IsTrue result ↔ IsFit size group.now }
{
    if group.addr <= superblock_block(size) || group.length == 0 || group.first < group.addr {
        return false;
    }
    if group.first - group.addr != u64::from(group.length) || group.count % 4 != 0 {
        return false;
    }
    let room = u64::from(size) - 128 + (u64::from(group.length) - 1) * (u64::from(size) - 24);
    u64::from(group.count) <= 4 * room
}

// Whether a group ends at this block or before.
fn ends_by(group: &Group, most: u64) -> bool
    ensures { IsTrue result ↔ (end_of group.now ≤ most) }
{
    group.first <= most && u64::from(group.count) <= most - group.first
}

// Whether groups fit and stand one behind another, and each ends at this block or before.
fn rise_to(groups: &[Group], size: u32, most: u64) -> bool
    requires { IsBlockSize size }
    ensures { IsTrue result ↔ (Rise size 0 groups.now × AllByRecursion (λ g. end_of g ≤ most) groups.now) }
{
    let mut least = 0;
    let mut rest = groups;
    while let [group, behind @ ..] = rest {
        if !is_fit(group, size) || group.addr < least || !ends_by(group, most) {
            return false;
        }
        least = group.first + u64::from(group.count);
        rest = behind;
    }
    true
}

/// Whether a node can work with these groups on a disk of so many blocks of this size, in bytes: they are some, at most as many as the
/// profile allows, stand one behind another above the superblock, and end on the disk. It goes over them once.
pub fn are_groups(groups: &[Group], size: u32, count: u64) -> bool
    requires { IsBlockSize size }
    ensures { IsTrue result ↔ AreGroupsOn size count groups.now }
{
    if groups.is_empty() || groups.len() > MOST_GROUPS as usize {
        return false;
    }
    let most = count.min(MOST_BLOCKS);
    rise_to(groups, size, most)
}

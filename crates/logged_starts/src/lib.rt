//! A node may begin with its log on a mounted image: a law. The function does nothing: its contract is the law.
#![tactic(auto)]

ghost use Rattle.logged_starts.specs.Laws.{MountedMayBegin};

use image_mount::mounted_groups_are_as_seen;
use mounted_views::mounted_journals_are_placed;

/// A law: on an idle disk whose image was mounted, also behind replays, a node may begin that has the first journal, and of no block yet.
pub fn mounted_images_may_begin()
    ensures { MountedMayBegin }
{
    mounted_groups_are_as_seen();
    mounted_journals_are_placed();
}

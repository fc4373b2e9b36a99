// What such changes make of images: laws.
ghost use Rattle.file_changes.specs.Making.{CutsFreeExactly, CutsMakeFiles, NothingIsWrong, WritesMakeFiles};

use draft_changes::{free_blocks_are_new, groups_say_what_is_taken};
use group_locks::standing_groups_are_sound;
use growth_laws::files_are_inodes;

/// A law: a change that writes bytes makes of the file what it should, in each image that the view may be of and that stands for a tree,
/// where the room is free there and as many blocks as needed.
pub fn writes_make_files()
    ensures { WritesMakeFiles }
{
    files_are_inodes();
    free_blocks_are_new();
    groups_say_what_is_taken();
}

/// A law: a draft in which a file is cut frees exactly the blocks past its end.
pub fn cuts_free_exactly()
    ensures { CutsFreeExactly }
{
    files_are_inodes();
}

/// A law: a change that cuts a file makes of it what it should, in each image that the view may be of and that stands for a tree.
pub fn cuts_make_files()
    ensures { CutsMakeFiles }
{
    files_are_inodes();
    groups_say_what_is_taken();
}

/// A law: what such changes tell as damaged isn't so of a file of an image that stands for a tree.
pub fn nothing_is_wrong()
    ensures { NothingIsWrong }
{
    standing_groups_are_sound();
}

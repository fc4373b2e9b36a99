// The tree of an image, its journals replayed.
ghost use Rattle.std.specs.Prelude.{◌≡◌, ◌%◌, ◌/◌, ℕ, IfErr, IfOk, length};
ghost use Rattle.file_tree.specs.Tree.{Tree};
ghost use Rattle.gfs2_layout.specs.Device.{IsBlockSize};
ghost use Rattle.image_journals.specs.Found.{AreJournals};
ghost use Rattle.image_journals.specs.Frames.{HasSameFrame};
ghost use Rattle.image_model.specs.Image.{Image as ImageValue, image_in};
ghost use Rattle.image_model.specs.Owners.{Owners};
ghost use Rattle.image_model.specs.Replays.{HasItsJournals, IsReplayable, Replayed, StandsReplayed};
ghost use Rattle.image_model.specs.Rules.{IsBrokenBlock};
ghost use Rattle.image_model.specs.Stands.{IsLaid, Layout, Stands};
ghost use Rattle.replayed_trees.specs.Answers.{GivesTree, HasNoSystem, IfBroken, IfDamaged, IfDamagedAsItLies, IsTold, IsToldAsItLies, IsToldByPlans, IsUnreadable};
ghost use Rattle.replay_marks.specs.Marking.{mark_of};
ghost use Rattle.replay_marks.specs.declared.marks.Mark.TheVariants as variant;
ghost use Rattle.replayed_trees.specs.Marking.{AreMarked};
ghost use Rattle.replayed_trees.specs.Planning.{AreInside};

use crate::Unread;
use crate::marking::first_marks;
use crate::plans::{are_journals_inside, plan_journals};
use crate::unread::{of_look, of_read, of_tree};
use disk_trees::read_replayed_tree;
use file_tree::{Content, Tree};
use image_journals::{JournalPlaces, Unfound, find_journals, standing_replays_share_their_system};
use image_reader::{Image, read_tree};
use image_replays::stopped_images_have_no_replay;
use replay_marks::Marks;
use std::alloc::Global;
use sure_disk::SureDisk;

// The rule that an image whose frame is not that of one that stands breaks as it lies, where one is told.
fn told_as_it_lies(alloc: Global, block_size: u32, bytes: Vec<u8>) -> Unread
    requires size { IsBlockSize block_size }
    requires whole { length bytes.items % block_size ≡ 0 }
    ensures lies { IfDamagedAsItLies result (λ block rule. IsBrokenBlock (image_in block_size bytes.items) rule block) }
    ensures damaged { IfDamaged result (λ block rule. ⊥) }
{
    let image = Image {
        block_size,
        bytes: Content::new(bytes),
    };
    match read_tree(alloc, &image) {
        Ok(_) => Unread::Broken,
        Err(fault) => of_read(fault),
    }
}

// The tree by the journals and marks that were found.
fn read_by(
    alloc: Global,
    block_size: u32,
    bytes: Vec<u8>,
    journals: &[JournalPlaces],
    marks: Marks,
) -> Result<Tree, Unread>
    requires size { IsBlockSize block_size }
    requires whole { length bytes.items % block_size ≡ 0 }
    requires marks { length marks ≡ length bytes.items / block_size }
    requires inside { AreInside (length bytes.items / block_size) journals.now }
    requires fresh { (block : ℕ) → mark_of marks block ≡ variant.Live → ⊥ }
    ensures stands { (l : Layout) (r : ImageValue) (t : Tree) → HasItsJournals (image_in block_size bytes.items) l → AreJournals (image_in block_size bytes.items) l journals.now → AreMarked (image_in block_size bytes.items) l marks
        → Replayed (image_in block_size bytes.items) l r → Stands r t → GivesTree t result }
    ensures replayable { IfOk result (λ tree. (l : Layout) → HasItsJournals (image_in block_size bytes.items) l → AreJournals (image_in block_size bytes.items) l journals.now → AreMarked (image_in block_size bytes.items) l marks
        → IsReplayable (image_in block_size bytes.items) l) }
    ensures damaged { IfErr result (λ unread. (l : Layout) → HasItsJournals (image_in block_size bytes.items) l → AreJournals (image_in block_size bytes.items) l journals.now → AreMarked (image_in block_size bytes.items) l marks
        → IfDamaged unread (IsUnreadable (image_in block_size bytes.items) l)) }
    ensures told { IfErr result (λ unread. IfDamaged unread (IsToldByPlans (image_in block_size bytes.items))) }
    ensures lies { IfErr result (λ unread. IfDamagedAsItLies unread (λ block rule. ⊥)) }
    ensures broken { IfErr result (λ unread. IfBroken unread ⊥) }
{
    stopped_images_have_no_replay();
    let Ok(mut disk) = SureDisk::new(block_size, bytes) else {
        return Err(Unread::NoMemory);
    };
    let plans = match plan_journals(alloc, &mut disk, journals, marks) {
        Ok(plans) => plans,
        Err(fault) => return Err(of_look(fault)),
    };
    match read_replayed_tree(alloc, &mut disk, &plans) {
        Ok(tree) => Ok(tree),
        Err(fault) => Err(of_tree(fault)),
    }
}

/// Reads the tree of files and directories that an image in memory, which is whole blocks of so many bytes, stands for with what its journals say in place, whatever its profile. It costs
/// what finding its journals, groups and system files costs, a copy of each place of the journals, and memory for the bytes once more, for what the journals put home, for an entry a block, and for
/// the tree.
pub fn read_replayed_image(alloc: Global, block_size: u32, bytes: Vec<u8>) -> Result<Tree, Unread>
    requires size { IsBlockSize block_size }
    requires whole { length bytes.items % block_size ≡ 0 }
    // Of an image that stands for a tree, its journals replayed, exactly that one, or there was no memory.
    ensures stands { (t : Tree) → StandsReplayed (image_in block_size bytes.items) t → GivesTree t result }
    // Where there is a tree, and the frame is that of an image that stands, the journals can be replayed.
    ensures replayable { IfOk result (λ tree. (r : ImageValue) (o : Owners) (l : Layout) → HasSameFrame r (image_in block_size bytes.items) → IsLaid r o l → IsReplayable (image_in block_size bytes.items) l) }
    // A block that is told stops the replay, as the dinode of a journal without a header does, or breaks its rule once the journals are replayed.
    ensures damaged { IfErr result (λ unread. IfDamaged unread (IsTold (image_in block_size bytes.items))) }
    // Of any image, whatever its frame, it does so of some journals, by what the image has at their places; which these are isn't said.
    ensures told { IfErr result (λ unread. IfDamaged unread (IsToldByPlans (image_in block_size bytes.items))) }
    // Or it breaks its rule in the image as it lies, and then the frame is that of no image that stands.
    ensures lies { IfErr result (λ unread. IfDamagedAsItLies unread (IsToldAsItLies (image_in block_size bytes.items))) }
    // No rule is told only where the frame is that of no image that stands.
    ensures broken { IfErr result (λ unread. IfBroken unread (HasNoSystem (image_in block_size bytes.items))) }
{
    standing_replays_share_their_system();
    let journals = match find_journals(alloc, block_size, &bytes) {
        Ok(journals) => journals,
        Err(Unfound::NoMemory) => return Err(Unread::NoMemory),
        Err(Unfound::Broken) => return Err(told_as_it_lies(alloc, block_size, bytes)),
    };
    let count = (bytes.len() / block_size as usize) as u64;
    if !are_journals_inside(&journals, count) {
        return Err(told_as_it_lies(alloc, block_size, bytes));
    }
    let marks = match first_marks(alloc, block_size, &bytes, &journals) {
        Ok(marks) => marks,
        Err(Unfound::NoMemory) => return Err(Unread::NoMemory),
        Err(Unfound::Broken) => return Err(told_as_it_lies(alloc, block_size, bytes)),
    };
    read_by(alloc, block_size, bytes, &journals, marks)
}

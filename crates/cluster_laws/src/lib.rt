//! The machine of a cluster of nodes over one disk, and its laws, over any file system.
#![tactic(auto)]

ghost use Rattle.cluster_laws.specs.Files.{Files};
ghost use Rattle.cluster_laws.specs.Laws.{TryKeeps, PublishKeeps, FlushKeeps, DownKeeps, GrantKeeps, ReadSees, Remains, StepKeeps, HeaderHeads, ReleaseKeeps, NumberFlushes, NumberTells, NotedReads, TryKeepsNotes, ReadKeepsNotes, StepKeepsNotes, NotesStand, NumbersKeep, CalmIsUntouched, ReadIsRight, RemainsLegal, PrefixClause, AtTheEnd, ImageAtTheEnd, RecoveredKeeps};
ghost use Rattle.cluster_laws.specs.World.{EveryRun};
ghost use Rattle.cluster_laws.specs.Rings.{EveryDisk, RingsReplay, RingGoesOver, RingBegins, RingEnds, StartSlotRecovered, PastEnds};
ghost use Rattle.cluster_laws.specs.Notes.{NeedsAreDone};
ghost use Rattle.cluster_laws.specs.Contents.{Rules, files_of, AnswersAreDone, FreeCells};

/// A file system: what an image stands for, what a call's answer means, and where each block belongs.
pub trait System {
    ghost files: { Files };

    fn block_size(&self) -> u32;
}

/// A law: a node answers a call from its view, and every image of every cut goes on standing.
pub fn a_try_keeps<S: System>()
    ensures { TryKeeps S.files }
{}

/// A law: the next answered call of a node is published.
pub fn publishing_keeps<S: System>()
    ensures { PublishKeeps S.files }
{}

/// A law: the calls up to a number are in the journal.
pub fn a_flush_keeps<S: System>()
    ensures { FlushKeeps S.files }
{}

/// A law: a node's locks go down.
pub fn a_down_keeps<S: System>()
    ensures { DownKeeps S.files }
{}

/// A law: a node is granted locks.
pub fn a_grant_keeps<S: System>()
    ensures { GrantKeeps S.files }
{}

/// A law: what a node may read, all images that have its calls agree on.
pub fn a_read_sees<S: System>()
    ensures { ReadSees S.files }
{}

/// A law: replayed, the disk stands for what remains, whatever became of the writes in flight.
pub fn what_remains_stands<S: System>()
    ensures { Remains S.files }
{}

/// A law: every event keeps all that holds of the machine.
pub fn a_step_keeps<S: System>()
    ensures { StepKeeps S.files }
{}

/// The headline of the machine: every run from a start has a legal history that keeps what was synced, and stands for what remains.
pub fn every_run_is_right<S: System>()
    ensures { EveryRun S.files }
{}

/// A law: a header may go in flight, where its live blocks are what the log's contract says.
pub fn a_header_heads<S: System>()
    ensures { HeaderHeads S.files }
{}

/// A law: a lock under which no block is live or touched by a call that isn't in the journal may go down.
pub fn a_release_keeps<S: System>()
    ensures { ReleaseKeeps S.files }
{}

/// A law: what a node keeps of a lock, the number of the last call since its grant that touched it, tells that it is past its flush, and that it may go down.
pub fn a_number_tells<S: System>()
    ensures flush { NumberFlushes S.files }
    ensures go { NumberTells S.files }
{}

/// A law: what a read gives is what the images have.
pub fn a_read_is_right<S: System>()
    ensures { ReadIsRight S.files }
{}

/// A law: the history with losses of any nodes, at any cut, is legal.
pub fn what_remains_is_legal<S: System>()
    ensures { RemainsLegal S.files }
{}

/// An image's model: images of contents alone, what they stand for, and where each block belongs.
pub trait ImageModel {
    ghost rules: { Rules };

    fn blocks(&self) -> u64;
}

/// A law: what the file calls say of images is what the machine wants of an answer.
pub fn answers_are_done<M: ImageModel>()
    ensures { AnswersAreDone M.rules }
{}

/// A law: where the contents of free blocks don't matter, they don't for the machine.
pub fn free_cells_are_free<M: ImageModel>()
    ensures { FreeCells M.rules }
{}

/// The headline over an image's model.
pub fn every_run_of_images_is_right<M: ImageModel>()
    ensures { EveryRun (files_of M.rules) }
{}

/// A law: a slot is recovered.
pub fn recovery_keeps<S: System>()
    ensures { RecoveredKeeps S.files }
{}

/// A law: what a node reads for a client's note is what the images have.
pub fn a_noted_read_is_right<S: System>()
    ensures { NotedReads S.files }
{}

/// A law: a try keeps the notes of all clients whose blocks it doesn't write or free.
pub fn a_try_keeps_notes<S: System>()
    ensures { TryKeepsNotes S.files }
{}

/// A law: a read keeps the notes of all other blocks.
pub fn a_read_keeps_notes<S: System>()
    ensures { ReadKeepsNotes S.files }
{}

/// A law: every event keeps what is said of a running node's cache and notes.
pub fn a_step_keeps_notes<S: System>()
    ensures { StepKeepsNotes S.files }
{}

/// The headline over an image's model, with the rings of the journals as they are.
pub fn every_disk_is_right<M: ImageModel>()
    ensures { EveryDisk M.rules }
{}

/// A law: a choice of heads for each journal is one for each node, and several journals may speak for one.
pub fn rings_are_replayed<S: System>()
    ensures { RingsReplay S.files }
{}

/// A law: a journal with nothing live goes over from the past to its node.
pub fn a_ring_goes_over<S: System>()
    ensures { RingGoesOver S.files }
{}

/// A law: what a try notes that ends without an answer stands.
pub fn a_note_stands<S: System>()
    ensures { NotesStand S.files }
{}

/// A law: every event keeps the numbers of the last calls that touched the locks, and a grant begins them anew.
pub fn a_step_keeps_numbers<S: System>()
    ensures { NumbersKeep S.files }
{}

/// A law: calls that change no tree touch no block.
pub fn calm_calls_touch_nothing<S: System>()
    ensures { CalmIsUntouched S.files }
{}

/// A law: what a file call says of a block that it finds missing is what the machine wants of a note.
pub fn needs_are_done<M: ImageModel>()
    ensures { NeedsAreDone M.rules }
{}

/// A law: a slot is recovered that waited since the start.
pub fn a_start_slot_is_recovered<S: System>()
    ensures { StartSlotRecovered S.files }
{}

/// A law: the past's locks end where it has no block any more.
pub fn the_past_ends<S: System>()
    ensures { PastEnds S.files }
{}

/// A law: a header of one of a node's journals is a header of the node.
pub fn a_ring_begins<S: System>()
    ensures { RingBegins S.files }
{}

/// A law: a header ends for the journals that speak for its node.
pub fn a_ring_ends<S: System>()
    ensures { RingEnds S.files }
{}

/// A law: the prefix clause, with losses of several lives and nodes in any order.
pub fn every_prefix_is_right<S: System>()
    ensures { PrefixClause S.files }
{}

/// A law: where nothing is unflushed, nothing is to be lost: the disk, replayed, stands for the tree of the history as it is; so does the image itself, where
/// no block is live or in flight.
pub fn the_end_is_right<S: System>()
    ensures replayed { AtTheEnd S.files }
    ensures image { ImageAtTheEnd S.files }
{}

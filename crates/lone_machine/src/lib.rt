//! One node that runs alone in the cluster's machine and holds its locks from the start: a law for each of its steps. The functions do nothing: their contracts
//! are the laws.
#![tactic(auto)]

ghost use Rattle.cluster_laws.specs.Files.{Files};
ghost use Rattle.lone_machine.specs.Laws.{AnswersAlone, BeginsAlone, ForgetsAlone, HeaderBeginsAlone, HeaderEndsAlone, LosesAlone, NoVersions, ReadsAlone, RemainsAlone, RingsAlone, SettlesAlone, SyncsAlone, VersionsGrow, WritesHomeAlone};

/// A file system, on which one node runs.
pub trait LoneSystem {
    ghost files: { Files };

    fn blocks(&self) -> u64;
}

/// A law: on a disk whose journals are clean, and whose image stands for a tree, the node begins alone.
pub fn a_node_begins_alone<S: LoneSystem>()
    ensures { BeginsAlone S.files }
{}

/// A law: it answers and publishes a call, and goes on with the image that has its change; so it does with a sync.
pub fn it_answers_alone<S: LoneSystem>()
    ensures call { AnswersAlone S.files }
    ensures sync { SyncsAlone S.files }
{}

/// A law: what it reads and hasn't cached is what it works on; and it may forget what it cached.
pub fn it_reads_alone<S: LoneSystem>()
    ensures reads { ReadsAlone S.files }
    ensures forgets { ForgetsAlone S.files }
{}

/// A law: the versions of blocks that its log has are what its calls leave, with each call and from none on.
pub fn versions_grow<S: LoneSystem>()
    ensures grow { VersionsGrow S.files }
    ensures none { NoVersions S.files }
{}

/// A law: a header begins with the versions that its calls leave, and ends on the disk or never comes there.
pub fn its_headers_are_headers<S: LoneSystem>()
    ensures begins { HeaderBeginsAlone S.files }
    ensures ends { HeaderEndsAlone S.files }
{}

/// A law: live blocks go home, and what is in flight is settled, as it was written or as any bytes.
pub fn its_blocks_go_home<S: LoneSystem>()
    ensures writes { WritesHomeAlone S.files }
    ensures settles { SettlesAlone S.files }
{}

/// A law: each journal's live blocks are those of its node's heads.
pub fn its_journal_is_its_own<S: LoneSystem>()
    ensures { RingsAlone S.files }
{}

/// A law: whatever becomes of its writes, and whichever head counts, the disk, its journal replayed, stands for what remains; and a loss by the
/// rule ends its life.
pub fn what_remains_of_it_stands<S: LoneSystem>()
    ensures stands { RemainsAlone S.files }
    ensures loses { LosesAlone S.files }
{}

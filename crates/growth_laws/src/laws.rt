//! One step each.
ghost use Rattle.growth_laws.specs.Laws.{BareFilesChangeHeight, ClearedPointersFree, ContentIsLevelZero, FilesAreInodes, FillsAddOne, FillsKeepContent, FillsKeepFiles, FillsLowerNeed, FillsOnePlace, FreesKeepFiles, FreesKeepTheFront, FreesTakeOne, IndirectFreesKeepContent, InodesAreFiles, NothingIsLacking, NumbersAtTheBack, NumbersBehindAreTheSame, NumbersInFront, PartsHavePlaces, PlacesAreParts, PlacesFollowPointers, PutPointersFill, PutsOverwrite, RaisesKeepFiles, RaisesLowerNeed, RewritesKeepTheRest, SizesResize, StuffedContentIsPut, TopPlacesAreThePointers, UnstuffingKeepsFiles, UnstuffingLowersNeed, WritesGrowFirst, WrittenDinodesAreSaid, ZerosAreNoNumber, WritesJoin};

/// A law: an inode that is a regular file keeps the rules of a file, and a file whose dinode counts its blocks those of an inode.
pub fn files_are_inodes()
    ensures files { InodesAreFiles }
    ensures inodes { FilesAreInodes }
{}

/// A law: the block at a place of a file's tree is the one whose part says so, and the one to which the
/// pointer of that place leads.
pub fn places_are_parts()
    ensures parts { PlacesAreParts }
    ensures places { PartsHavePlaces }
    ensures content { ContentIsLevelZero }
    ensures top { TopPlacesAreThePointers }
    ensures lower { PlacesFollowPointers }
{}

/// A law: a file in which a hole is filled is a file with the same content and one block more, at that place; and where
/// a write needed that block, it needs one less.
pub fn fills_keep_files()
    ensures files { FillsKeepFiles }
    ensures content { FillsKeepContent }
    ensures count { FillsAddOne }
    ensures place { FillsOnePlace }
    ensures need { FillsLowerNeed }
{}

/// A law: a file of which a block is freed that leads nowhere is a file with one block less, and the content before it stays.
pub fn frees_keep_files()
    ensures files { FreesKeepFiles }
    ensures front { FreesKeepTheFront }
    ensures indirect { IndirectFreesKeepContent }
    ensures count { FreesTakeOne }
{}

/// A law: a pointer put over 0 fills that hole with a new block, and 0 put over a pointer frees the block to which it led; and
/// other bytes in a block leave every part and every other block.
pub fn pointers_are_steps()
    ensures fill { PutPointersFill }
    ensures free { ClearedPointersFree }
    ensures rewritten { RewritesKeepTheRest }
{}

/// A law: numbers behind a place are what stands behind it, and a dinode that is written is said, with the pointers behind it.
pub fn numbers_stand_behind()
    ensures same { NumbersBehindAreTheSame }
    ensures zeros { ZerosAreNoNumber }
    ensures front { NumbersInFront }
    ensures back { NumbersAtTheBack }
    ensures dinode { WrittenDinodesAreSaid }
{}

/// A law: a write that needs no block finds one at each place on its way.
pub fn nothing_is_lacking()
    ensures { NothingIsLacking }
{}

/// A law: a file that gets another height keeps its content; and a higher file needed the block that this took.
pub fn heights_change()
    ensures raised { RaisesKeepFiles }
    ensures unstuffed { UnstuffingKeepsFiles }
    ensures bare { BareFilesChangeHeight }
    ensures raised_need { RaisesLowerNeed }
    ensures unstuffed_need { UnstuffingLowersNeed }
{}

/// A law: bytes put over those of a block of content are put over the content; content in the dinode's block is what was put there.
pub fn puts_overwrite()
    ensures blocks { PutsOverwrite }
    ensures stuffed { StuffedContentIsPut }
{}

/// A law: another size cuts the content, or lets it go on with zeros.
pub fn sizes_resize()
    ensures { SizesResize }
{}

/// A law: a write piece by piece is a write, and one that ends past the content may grow it first.
pub fn writes_join()
    ensures join { WritesJoin }
    ensures grow { WritesGrowFirst }
{}

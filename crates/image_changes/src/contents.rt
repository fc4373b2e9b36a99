//! Laws of the layout, and of contents that don't matter.
ghost use Rattle.image_changes.specs.Contents.{ContentDoesNotMatter, FreeBlocksDoNotMatter, PlacesDoNotMatter};
ghost use Rattle.image_changes.specs.Laws.{OneLayout};

/// A law: an image has one layout.
pub fn an_image_has_one_layout()
    ensures { OneLayout }
{}

/// A law: the rules of a regular file don't look at what its blocks of content have.
pub fn content_of_files_does_not_matter()
    ensures { ContentDoesNotMatter }
{}

/// A law: with other bytes in places of journals, each of which can be read afterwards, an image stands for the same tree by
/// the same table.
pub fn places_of_journals_do_not_matter()
    ensures { PlacesDoNotMatter }
{}

/// A law: with other bytes in free blocks an image stands for the same tree by the same table.
pub fn free_blocks_do_not_matter()
    ensures { FreeBlocksDoNotMatter }
{}

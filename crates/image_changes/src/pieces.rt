//! Laws of the parts of an image: directories by their records, and groups by the states of their blocks.
ghost use Rattle.image_changes.specs.Directories.{LooksAtNames, OtherParent, RecordsGoAndCome};
ghost use Rattle.image_changes.specs.States.{BlocksAreFreed, BlocksAreSet, GroupsStay, OtherGeneration, StateIsPut, TableSays};

/// A law: a directory stays one where number and kind of the inodes that it names, of itself and of its parent are the same, and
/// the owners of those that it names.
pub fn a_directory_looks_at_what_it_names()
    ensures { LooksAtNames }
{}

/// A law: what a directory is after some of its records went and others came, in whatever order they stand.
pub fn records_go_and_come()
    ensures { RecordsGoAndCome }
{}

/// A law: a directory stays one where its `..` is made to name another parent.
pub fn a_directory_gets_another_parent()
    ensures { OtherParent }
{}

/// A law: a group whose header and bitmap are as before, and whose blocks keep their states, says what the table of owners does.
pub fn untouched_groups_stay()
    ensures { GroupsStay }
{}

/// A law: a group in whose bitmap one state was put, and whose counts follow, says the states with that one put.
pub fn a_state_is_put()
    ensures { StateIsPut }
{}

/// A law: a group some of whose data blocks were freed says the states of a table in which these are free.
pub fn blocks_are_freed()
    ensures { BlocksAreFreed }
{}

/// A law: a group at some of whose data blocks one state was put says the states of a table in which these have that state.
pub fn blocks_are_set()
    ensures { BlocksAreSet }
{}

/// A law: a group whose header was written with another number of its last inode says the same states.
pub fn a_generation_is_no_state()
    ensures { OtherGeneration }
{}

/// A law: states that are the owners', block by block, are those of the table.
pub fn states_are_those_of_owners()
    ensures { TableSays }
{}

//! A directory's table as a file.
ghost use Rattle.table_files.specs.Laws.{DoublingsAreWrites, TablesAreFiles};

/// A law: a directory without its leaves, of which the table has no hole, is with another dinode a regular file of whole blocks, which
/// counts its blocks; and a table that is twice as long, written over its content, needs as many blocks as a doubling.
pub fn tables_are_files()
    ensures files { TablesAreFiles }
    ensures need { DoublingsAreWrites }
{}

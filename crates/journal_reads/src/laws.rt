// Laws of journals on a disk.
ghost use Rattle.journal_reads.specs.Laws.{RingsReadAreWhole};

/// A law: a journal on a disk that tells its blocks has whole blocks.
pub fn rings_read_are_whole()
    ensures { RingsReadAreWhole }
{}

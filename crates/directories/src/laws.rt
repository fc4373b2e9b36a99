//! What the definitions mean. The functions do nothing: their contracts are the laws.
ghost use Rattle.std.specs.Prelude.{ℕ, List, Option, ◌≡◌, ◌+◌, true, false, length, Contains, IsSome};
ghost use Rattle.std.specs.Option.{option_map};
ghost use Rattle.file_tree.specs.Names.{IsName};
ghost use Rattle.gfs2_layout.specs.Exchanges.{directory_count};
ghost use Rattle.gfs2_layout.specs.Holding.{Holding};
ghost use Rattle.gfs2_layout.specs.Inode.{dinode_in, is_directory_in, records_of};
ghost use Rattle.gfs2_layout.specs.Records.{Record, is_dots, record_named};
ghost use Rattle.glock_names.specs.declared.steps.Entry.{Entry as EntryValue};
ghost use Rattle.glock_names.specs.Views.{Seen};
ghost use Rattle.resource_groups.specs.Putting.{HasDataBlock};
ghost use Rattle.linear_dirs.specs.Shown.{entry_of};
ghost use Rattle.tree_tables.specs.Shown.{IsSound};
ghost use Rattle.directories.specs.Shown.{IsBroken, Says};

/// A law: a sound directory says of a name what its records say, whatever its form.
pub fn directories_say_their_records()
    ensures { (h : Holding) (name : List ℕ) (found : Option EntryValue) → IsSound h → Says h name found → found ≡ option_map entry_of (record_named (records_of h) name) }
{}

/// A law: in a sound directory each of whose blocks is a data block of a group of the view, and each block to which a name leads, whose records have
/// names, or are `.` and `..`, and whose dinode counts its records and links, nothing is broken; so no call tells that it is damaged.
pub fn sound_directories_break_nothing()
    ensures { (v : Seen) (h : Holding) (rule b : ℕ) → IsSound h → is_directory_in h ≡ true → ((x : ℕ) → IsSome (h.cell x) → HasDataBlock v x) → ((r : Record) → Contains (records_of h) r → is_dots r.name ≡ false → HasDataBlock v r.address) → ((r : Record) → Contains (records_of h) r → is_dots r.name ≡ false → IsName r.name)
        → (dinode_in h).entries ≡ length (records_of h) → (dinode_in h).nlink ≡ 2 + directory_count (records_of h) → IsBroken v h rule b → ⊥ }
{}

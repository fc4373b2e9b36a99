// Laws of what names need that come where others went. The function does nothing: its contract is the law.
ghost use Rattle.std.specs.Prelude.{ℕ, List, ◌≡◌, ◌^◌, ◌<◌};
ghost use Rattle.crc_words.specs.Remainder.{crc32_of};
ghost use Rattle.gfs2_layout.specs.Holding.{Holding};
ghost use Rattle.hash_dirs.specs.Shown.{IsSound};
ghost use Rattle.name_moves.specs.Becoming.{NeedsAfter};

/// A law: however names go from a sound directory, one after another, a name takes the same number of blocks then.
pub fn a_move_needs_one_number()
    ensures { (names : List (List ℕ)) (h : Holding) (new_name : List ℕ) (need other : ℕ) → IsSound h → crc32_of new_name < 2 ^ 32
        → NeedsAfter names h new_name need → NeedsAfter names h new_name other → need ≡ other }
{}

//! What the definitions mean. The functions do nothing: their contracts are the laws.
ghost use Rattle.std.specs.Prelude.{◌≡◌, ◌≢◌, ◌↔◌, ℕ, ◌+◌, ◌*◌, ◌/◌, ◌%◌, ◌<◌, ◌≤◌, [], ◌∷◌, ◌++◌, List, length, slice_index_or, count_by, Some, None, true, false};
ghost use Rattle.std.specs.List.{All, flat_map, list_any};
ghost use Rattle.std.specs.Option.{option_map};
ghost use Rattle.std.specs.Str.{bytes_eq};
ghost use Rattle.gfs2_layout.specs.declared.dirent.Dirent.{Dirent};
ghost use Rattle.gfs2_layout.specs.Structures.{is_in_use};
ghost use Rattle.gfs2_layout.specs.Area.{Slot, IsArea, IsRecordAt, first_named, name_of, slot_bytes, slots_of};
ghost use Rattle.gfs2_layout.specs.Putting.{IsEntryOf, HasOneMore, has_room, least_length, new_says, put_slot, says, told};
ghost use Rattle.gfs2_layout.specs.Cutting.{slot_from, slots_without};
ghost use Rattle.gfs2_layout.specs.Records.{IsRecordArea, record_named, record_of, records_in, said_by};
ghost use Rattle.gfs2_layout.specs.Exchanges.{IsExchanged};
ghost use Rattle.gfs2_layout.specs.Laws.{AreasJoin, StructuresReadBack};
ghost use Rattle.gfs2_layout.specs.Bitmap.{state_at, with_state, packed};

use crc_words::checksums_have_32_bits;

/// A law: a structure is read as it was written, from its own bytes alone, and the bytes behind it stay.
pub fn structures_read_back()
    ensures { StructuresReadBack }
{
    checksums_have_32_bits();
}

/// A law: of two areas one behind the other the records are those of the first and then those of the second.
pub fn areas_join()
    ensures { AreasJoin }
{}

/// A law: a state that was put is read again at its place, and what stood elsewhere stays.
pub fn states_are_put_and_read()
    ensures put { (bitmap : List ℕ) (i state : ℕ) → i < 4 * length bitmap → state < 4 → state_at (with_state bitmap i state) i ≡ state }
    ensures others { (bitmap : List ℕ) (i state k : ℕ) → state < 4 → k ≢ i → state_at (with_state bitmap i state) k ≡ state_at bitmap k }
    ensures as_many { (bitmap : List ℕ) (i state : ℕ) → length (with_state bitmap i state) ≡ length bitmap }
{}

/// A law: of states that were packed each is read again at its place, and behind them free ones; bytes packed
/// one part after another are those of all.
pub fn packed_states_are_read()
    ensures read { (states : List ℕ) (i : ℕ) → All (λ s. s < 4) states → state_at (packed states) i ≡ slice_index_or states i 0 }
    ensures on { (front back : List ℕ) → length front % 4 ≡ 0 → packed (front ++ back) ≡ packed front ++ packed back }
    ensures as_many { (states : List ℕ) → length (packed states) ≡ (length states + 3) / 4 }
{}

/// A law: an area of records is the bytes of its records, one behind the other.
pub fn areas_are_their_records()
    ensures { (area : List ℕ) → IsArea area → All (λ byte. byte < 256) area → flat_map slot_bytes (slots_of area) ≡ area }
{}

/// A law: a record can be put in exactly where one has room. Then the records in use tell what they told, in
/// their order, and one tells of the new one; so its name is found, unless that name was there, and every
/// other name as before.
pub fn put_records_are_found()
    ensures room { (entry : Dirent) (name : List ℕ) (slots : List Slot)
        → (put_slot entry name slots ≡ None) ↔ (list_any (has_room (least_length (length name))) slots ≡ false) }
    ensures told { (entry : Dirent) (name : List ℕ) (slots after : List Slot)
        → IsEntryOf entry name → put_slot entry name slots ≡ Some after
        → HasOneMore (new_says entry name) (told slots) (told after) }
    ensures found { (entry : Dirent) (name : List ℕ) (slots after : List Slot)
        → IsEntryOf entry name → put_slot entry name slots ≡ Some after → first_named name slots ≡ None
        → option_map says (first_named name after) ≡ Some (new_says entry name) }
    ensures others { (entry : Dirent) (name : List ℕ) (slots after : List Slot) (other : List ℕ)
        → IsEntryOf entry name → put_slot entry name slots ≡ Some after → other ≢ name
        → option_map says (first_named other after) ≡ option_map says (first_named other slots) }
{}

/// A law: where a record in use is cut, the records in use tell what they told, in their order, but for what
/// it tells. So every other name is found as before, and its own isn't found, if it stood once.
pub fn cut_records_are_gone()
    ensures told { (old new : List ℕ) (at : ℕ)
        → IsRecordAt old at → is_in_use (slot_from at old).head ≡ true → slots_of new ≡ slots_without at old
        → HasOneMore (says (slot_from at old)) (told (slots_of new)) (told (slots_of old)) }
    ensures others { (old new : List ℕ) (at : ℕ) (other : List ℕ)
        → IsRecordAt old at → is_in_use (slot_from at old).head ≡ true → slots_of new ≡ slots_without at old → other ≢ name_of (slot_from at old)
        → option_map says (first_named other (slots_of new)) ≡ option_map says (first_named other (slots_of old)) }
    ensures gone { (old new : List ℕ) (at : ℕ)
        → IsRecordAt old at → is_in_use (slot_from at old).head ≡ true → slots_of new ≡ slots_without at old
        → count_by (λ r. bytes_eq (name_of (slot_from at old)) r.name) (records_in old) ≤ 1
        → first_named (name_of (slot_from at old)) (slots_of new) ≡ None }
{}

/// A law: where a record is put into an area of records, or one in use is cut from it, the area is one again,
/// and its records are those before with the new one, or without that one.
pub fn areas_exchange_records()
    ensures put { (old new : List ℕ) (entry : Dirent) (name : List ℕ)
        → IsRecordArea old → IsEntryOf entry name → put_slot entry name (slots_of old) ≡ Some (slots_of new) → IsArea new
        → IsRecordArea new × IsExchanged (records_in old) (records_in new) [] (said_by entry name ∷ []) }
    ensures cut { (old new : List ℕ) (at : ℕ)
        → IsRecordArea old → IsRecordAt old at → is_in_use (slot_from at old).head ≡ true → slots_of new ≡ slots_without at old → IsArea new
        → IsRecordArea new × IsExchanged (records_in old) (records_in new) (record_of (slot_from at old) ∷ []) [] }
{}

/// A law: the first record in use of a name is the first of that name among what the records in use say.
pub fn records_are_found_by_name()
    ensures first { (area name : List ℕ) → option_map record_of (first_named name (slots_of area)) ≡ record_named (records_in area) name }
    ensures named { (name : List ℕ) (slots : List Slot) (s : Slot) → first_named name slots ≡ Some s → (is_in_use s.head ≡ true) × (name_of s ≡ name) }
{}

//! What a caller says of the values behind the turns.
ghost use Rattle.std.specs.Prelude.{◌≡◌, ◌≢◌, ℕ, List, Some, slice_get, slice_set};

/// The rule of the values, which are the parts of one table. It has no function: its members are for proofs alone.
pub trait TurnRule<V> {
    // What is true of all parts together.
    ghost holds: { List V → Type 0 };

    // A change of one part, from the old value to the new one, that is allowed by itself.
    ghost alone: { V → V → Type 0 };

    // Two changes that are allowed together: the old values, and then the new ones.
    ghost paired: { V → V → V → V → Type 0 };

    // The second value is the first, or one that the first grew into.
    ghost grows: { V → V → Type 0 };

    ghost alone_keeps: { (parts : List V) (p : ℕ) (old new : V) → holds parts → slice_get parts p ≡ Some old → alone old new → holds (slice_set parts p new) };

    ghost paired_keeps: { (parts : List V) (a b : ℕ) (old_a old_b new_a new_b : V) → a ≢ b → holds parts → slice_get parts a ≡ Some old_a → slice_get parts b ≡ Some old_b → paired old_a old_b new_a new_b → holds (slice_set (slice_set parts a new_a) b new_b) };

    ghost unchanged_alone: { (v : V) → alone v v };

    ghost alone_grows: { (old new : V) → alone old new → grows old new };

    ghost paired_grows: { (old_a old_b new_a new_b : V) → paired old_a old_b new_a new_b → grows old_a new_a × grows old_b new_b };

    ghost grows_reflexive: { (v : V) → grows v v };

    ghost grows_transitive: { (u v w : V) → grows u v → grows v w → grows u w };
}

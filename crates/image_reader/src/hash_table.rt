ghost use Rattle.std.specs.Prelude.{◌≡◌, ◌≢◌, ◌+◌, ◌-◌, ◌*◌, ◌^◌, ◌<◌, ◌≤◌, ℕ, true, false, length};
ghost use Rattle.gfs2_layout.specs.Bytes.{u64_at};

use crate::blocks::number_at;

/// The table of a hashed directory: its depth, and its content, which is 2 to the power depth pointers to leaves, each a
/// number of eight bytes.
#[derive(Drop)]
pub struct HashTable {
    pub depth: u16,
    pub bytes: Vec<u8>,
    ghost deep: { depth ≤ 15 },
    ghost whole: { length bytes.items ≡ 8 * 2 ^ depth },
}

/// How many pointers a table of this depth has.
pub fn pointers_of(depth: u16) -> u64
    requires { depth ≤ 15 }
    ensures { result ≡ 2 ^ depth }
{
    1 << depth
}

impl HashTable {
    /// How many pointers it has.
    pub fn count(&self) -> u64
        ensures { result ≡ 2 ^ self.now.depth }
    {
        1 << self.depth
    }

    /// Pointer i of the table: the number of a block, and 0 where it leads nowhere.
    pub fn pointer(&self, i: u64) -> u64
        requires { i < 2 ^ self.now.depth }
        ensures { result ≡ u64_at (8 * i) self.now.bytes.items }
    {
        number_at(&self.bytes, 8 * i as usize)
    }

    /// How many pointers lead to a leaf of this depth: neighbours, the first of them at a multiple of their count.
    pub fn run(&self, depth: u16) -> u64
        requires { depth ≤ self.now.depth }
        ensures { result ≡ 2 ^ (self.now.depth - depth) }
    {
        1 << (self.depth - depth)
    }

    /// Whether so many pointers from one on lead to this block. It looks at each of them, up to the first that doesn't.
    pub fn leads_to(&self, first: u64, run: u64, number: u64) -> bool
        requires { first + run ≤ 2 ^ self.now.depth }
        ensures yes { result ≡ true → (j : ℕ) → first ≤ j → j < first + run → u64_at (8 * j) self.now.bytes.items ≡ number }
        ensures no { result ≡ false → (j : ℕ) × ((first ≤ j) × (j < first + run) × (u64_at (8 * j) self.now.bytes.items ≢ number)) }
    {
        for i in first..first + run {
            if self.pointer(i) != number {
                return false;
            }
        }
        true
    }
}

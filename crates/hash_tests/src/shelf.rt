// A view of blocks of 512 bytes that are kept in a map.
use glock_names::{Group, LockName, State, View};
use std::alloc::{AllocError, Global};
use std::collections::BTreeMap;

// One group, which has the directory, its leaves and the files.
static GROUPS: [Group; 1] = [Group {
    addr: 130,
    length: 1,
    first: 131,
    count: 100,
}];

/// The blocks that are there.
#[derive(Drop)]
pub(crate) struct Shelf {
    pub blocks: BTreeMap<u64, Vec<u8>>,
}

impl View for Shelf {
    ghost use Rattle.std.specs.Prelude.{None, Some, [], ◌∷◌, length, ◌==◌, if◌then◌else◌, option_and_then};
    ghost use Rattle.std.specs.BTreeMap.{get};
    ghost use Rattle.std.specs.Ordering.{nat_cmp};
    ghost use Rattle.glock_names.specs.declared.State.TheVariants.{Ex};

    ghost seen = { λ v. record {
      size = 512;
      root = 2;
      groups = record { addr = 130; length = 1; first = 131; count = 100 } ∷ [];
      state_of = λ lock. Ex;
      block_at = λ b. option_and_then (λ bytes. if length bytes.items == 512 then Some bytes.items else None) (get nat_cmp v.blocks b);
    } };

    fn state(&self, _lock: LockName) -> State {
        State::Ex
    }

    fn block(&self, block: u64) -> Option<&[u8]> {
        match self.blocks.get(&block) {
            Some(bytes) if bytes.len() == 512 => Some(bytes),
            _ => None,
        }
    }

    fn groups(&self) -> &[Group] {
        &GROUPS
    }

    fn root(&self) -> u64 {
        2
    }

    fn block_size(&self) -> u32 {
        512
    }
}

/// Bytes at a place of a block.
pub(crate) type Part = (u64, usize, &'static [u8]);

/// Lays a part over its block, which is made of zeros where it isn't there.
pub(crate) fn lay(shelf: &mut Shelf, alloc: Global, part: Part) -> Result<(), AllocError> {
    let (number, at, bytes) = part;
    let mut block = match shelf.blocks.remove(&number) {
        Some(block) => block,
        None => vec![in alloc; 0; 512]?,
    };
    if at <= block.len() && bytes.len() <= block.len() - at {
        block[at..at + bytes.len()].copy_from_slice(bytes);
    }
    shelf.blocks.insert(number, block)?;
    Ok(())
}

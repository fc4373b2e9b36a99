// A group of eight data blocks on blocks of 512 bytes, by hand after Linux's gfs2_ondisk.h: a dinode, a used block, a free one, a
// used one, and four free ones.
use drafts::Draft;
use glock_names::{CallFault, Group, LockName, Missing, State, Step, View};
use resource_groups::{find_free, set_state};
use std::alloc::{AllocError, Global};
use std::test::Fail;

const GROUP: Group = Group {
    addr: 130,
    length: 1,
    first: 131,
    count: 8,
};

static GROUPS: [Group; 1] = [GROUP];

// The group's block, if there is one.
#[derive(Drop)]
struct Shelf {
    header: Vec<u8>,
}

impl View for Shelf {
    ghost use Rattle.std.specs.Prelude.{None, Some, [], ◌∷◌, length, ◌==◌, if◌then◌else◌};
    ghost use Rattle.glock_names.specs.declared.State.TheVariants.{Ex};

    ghost seen = { λ v. record {
      size = 512;
      root = 0;
      groups = record { addr = 130; length = 1; first = 131; count = 8 } ∷ [];
      state_of = λ lock. Ex;
      block_at = λ b. if b == 130 then (if length v.header.items == 512 then Some v.header.items else None) else None;
    } };

    fn state(&self, _lock: LockName) -> State {
        State::Ex
    }

    fn block(&self, block: u64) -> Option<&[u8]> {
        if block == 130 && self.header.len() == 512 {
            Some(&self.header)
        } else {
            None
        }
    }

    fn groups(&self) -> &[Group] {
        &GROUPS
    }

    fn root(&self) -> u64 {
        0
    }

    fn block_size(&self) -> u32 {
        512
    }
}

// The first bytes of the group's block, which count no free block and a dinode, and zeros up to the bits.
fn header(alloc: Global) -> Result<Vec<u8>, AllocError> {
    let mut bytes = vec![in alloc; 0; 512]?;
    for (place, byte) in [
        (0, 0x01),
        (1, 0x16),
        (2, 0x19),
        (3, 0x70),
        (7, 2),
        (19, 200),
        (35, 1),
        (55, 131),
        (59, 8),
        (63, 2),
        (128, 0b01_00_01_11),
    ] {
        if let Some(old) = bytes.get_mut(place) {
            *old = byte;
        }
    }
    Ok(bytes)
}

#[test]
fn a_missing_header_is_named(rt: HostRuntime) -> Result<(), Fail> {
    let empty = Shelf {
        header: Vec::new(rt.alloc()),
    };
    let missing = Missing {
        lock: LockName {
            kind: 3,
            number: 130,
        },
        block: 130,
        plain: false,
        from: 130,
    };
    assert_eq!(rt; find_free(&empty, &GROUP, 0), Ok(Step::NeedBlock(missing)));
    assert_eq!(rt; find_free(&empty, &GROUP, 138), Ok(Step::Is(None)));
    Ok(())
}

// Every call counts the free blocks before it takes one, and tells the same.
#[test]
fn a_block_is_not_taken_where_none_is_counted(rt: HostRuntime) -> Result<(), Fail> {
    let a = rt.alloc();
    let miscounted = Shelf { header: header(a)? };
    let mut draft = Draft::new(a, &miscounted);
    assert_eq!(rt;
        set_state(&mut draft, 133, 1),
        Err(CallFault::Damaged {
            block: 130,
            rule: 6
        })
    );
    Ok(())
}

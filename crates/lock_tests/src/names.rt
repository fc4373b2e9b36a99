// A lock's bytes, and two views: one over nothing, and one over a map from block numbers to bytes.
ghost use Rattle.std.specs.Prelude.{◌≡◌};

use glock_names::{Group, LockName, State, View, is_at_most, is_below, may_cache};
use std::collections::BTreeMap;
use std::process::Abort;
use std::test::Fail;

static NO_GROUPS: [Group; 0] = [];

#[derive(Drop)]
struct Nothing;

impl View for Nothing {
    ghost use Rattle.std.specs.Prelude.{None, []};
    ghost use Rattle.glock_names.specs.declared.State.TheVariants.{Un};

    ghost seen = { λ v. record { size = 512; root = 0; groups = []; state_of = λ lock. Un; block_at = λ b. None } };

    fn state(&self, _lock: LockName) -> State {
        State::Un
    }

    fn block(&self, _block: u64) -> Option<&[u8]> {
        None
    }

    fn groups(&self) -> &[Group] {
        &NO_GROUPS
    }

    fn root(&self) -> u64 {
        0
    }

    fn block_size(&self) -> u32 {
        512
    }
}

// The blocks that a node has read; bytes that are no block of 512 bytes count for nothing.
#[derive(Drop)]
struct Kept {
    root: u64,
    blocks: BTreeMap<u64, Vec<u8>>,
}

impl View for Kept {
    ghost use Rattle.std.specs.Prelude.{None, Some, [], length, ◌==◌, if◌then◌else◌, option_and_then};
    ghost use Rattle.std.specs.BTreeMap.{get};
    ghost use Rattle.std.specs.Ordering.{nat_cmp};
    ghost use Rattle.glock_names.specs.declared.State.TheVariants.{Ex};

    ghost seen = { λ v. record {
      size = 512;
      root = v.root;
      groups = [];
      state_of = λ lock. Ex;
      block_at = λ b. option_and_then (λ bytes. if length bytes.items == 512 then Some bytes.items else None) (get nat_cmp v.blocks b);
    } };

    fn state(&self, _lock: LockName) -> State {
        State::Ex
    }

    fn block(&self, block: u64) -> Option<&[u8]> {
        match self.blocks.get(&block) {
            Some(bytes) if bytes.len() == 512 => Some(bytes),
            _ => None,
        }
    }

    fn groups(&self) -> &[Group] {
        &NO_GROUPS
    }

    fn root(&self) -> u64 {
        self.root
    }

    fn block_size(&self) -> u32 {
        512
    }
}

#[test]
fn a_lock_is_named_by_nine_bytes(rt: HostRuntime) {
    let lock = LockName {
        kind: 2,
        number: 0x0102_0304_0506_0708,
    };
    assert!(rt; lock.bytes() == [2, 1, 2, 3, 4, 5, 6, 7, 8]);
}

// How many bytes of a block the view has.
fn count<V: View>(view: &V, block: u64) -> Option<usize> {
    Some(view.block(block)?.len())
}

#[test]
fn a_view_has_the_whole_blocks_that_it_was_given(rt: HostRuntime) -> Result<(), Fail> {
    let a = rt.alloc();
    let mut blocks = BTreeMap::new(a);
    blocks.insert(7, vec![in a; 9; 512]?)?;
    blocks.insert(8, vec![in a; 9; 511]?)?;
    let kept = Kept { root: 7, blocks };
    assert_eq!(rt; kept.root(), 7);
    assert_eq!(rt; kept.block_size(), 512);
    assert_eq!(rt; kept.groups().len(), 0);
    assert_eq!(rt; kept.state(LockName { kind: 2, number: 7 }), State::Ex);
    assert_eq!(rt; count(&kept, 7), Some(512));
    assert_eq!(rt; count(&kept, 8), None);
    assert_eq!(rt; count(&kept, 9), None);
    assert_eq!(rt; count(&Nothing, 7), None);
    assert_eq!(rt; Nothing.root(), 0);
    assert_eq!(rt; Nothing.state(LockName { kind: 2, number: 7 }), State::Un);
    assert_eq!(rt; Nothing.block_size(), 512);
    assert_eq!(rt; Nothing.groups().len(), 0);
    Ok(())
}

#[test]
fn states_have_an_order(rt: HostRuntime) {
    let states = [State::Un, State::Sh, State::Df, State::Ex];
    // for each of these the states at which it is at most, and what of content and of other blocks it lets cache
    for (a, at_most, content, other) in [
        (State::Un, [true, true, true, true], false, false),
        (State::Sh, [false, true, false, true], true, true),
        (State::Df, [false, false, true, true], false, true),
        (State::Ex, [false, false, false, true], true, true),
    ] {
        for (b, is) in states.iter().zip(at_most) {
            assert_eq!(rt; is_at_most(a, *b), is);
            assert_eq!(rt; is_below(a, *b), is && a != *b);
        }
        assert_eq!(rt; may_cache(a, true), content);
        assert_eq!(rt; may_cache(a, false), other);
    }
}

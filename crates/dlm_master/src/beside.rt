ghost use Rattle.std.specs.Prelude.{◌≡◌, fold};
ghost use Rattle.dlm_master.specs.Locks.{writes_value as writes, value_after as value_then, most_beside as most_with, most_below as most_of_both, kept_beside as kept_with};

use crate::claims::Claim;
use dlm_modes::{Mode, ValueBlock, covers};

fn writes_value(mode: Option<Mode>) -> bool
    ensures { result ≡ writes mode }
{
    matches!(mode, Some(Mode::Pw | Mode::Ex))
}

/// The lock's value after a node that had this mode is lowered, and maybe gave one.
pub(crate) fn value_after(
    had: Option<Mode>,
    given: Option<[u8; 32]>,
    value: ValueBlock,
) -> ValueBlock
    ensures { result ≡ value_then had given value }
{
    match given {
        None => value,
        Some(bytes) => {
            if writes_value(had) {
                ValueBlock { bytes, valid: true }
            } else {
                value
            }
        }
    }
}

fn most_beside(mode: Mode) -> Mode
    ensures { result ≡ most_with mode }
{
    match mode {
        Mode::Nl => Mode::Ex,
        Mode::Cr => Mode::Pw,
        Mode::Cw => Mode::Cw,
        Mode::Pr => Mode::Pr,
        Mode::Pw => Mode::Cr,
        Mode::Ex => Mode::Nl,
    }
}

fn most_below(a: Mode, b: Mode) -> Mode
    ensures { result ≡ most_of_both a b }
{
    if covers(a, b) {
        b
    } else if covers(b, a) {
        a
    } else {
        Mode::Cr
    }
}

fn kept_beside(node: u8, mode: Mode, waiter: Claim) -> Mode
    ensures { result ≡ kept_with node mode waiter }
{
    if waiter.node == node {
        mode
    } else {
        most_below(mode, most_beside(waiter.mode))
    }
}

/// What the node, which has this mode, may keep beside the waiters.
pub(crate) fn kept(node: u8, mode: Mode, waiters: &[Claim]) -> Mode
    ensures { result ≡ fold (kept_with node) mode waiters.now }
{
    waiters
        .iter()
        .fold(mode, |keep, waiter| kept_beside(node, keep, *waiter))
}

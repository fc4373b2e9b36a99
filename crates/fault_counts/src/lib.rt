//! Counts of faults, which never fall, and when a fault may be answered.
#![tactic(auto)]

ghost use Rattle.std.specs.Prelude.{◌≡◌};
ghost use Rattle.fault_counts.specs.Causes.{Rose, raised_once};

/// A count that rose from one number to another. At the end of its type it stands still.
#[derive(Clone, Copy, Debug, PartialEq, Eq)]
pub struct Rise {
    pub before: u64,
    pub after: u64,
}

/// The count after one more fault. It stands still at its type's end.
pub fn raised(count: u64) -> u64
    ensures value { result ≡ raised_once count }
    ensures rose { Rose count result }
{
    count.saturating_add(1)
}

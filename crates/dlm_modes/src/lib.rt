//! The lock manager's vocabulary: the six modes of a lock, which of them go together, the value that a lock carries, and the
//! kinds of the messages between two nodes' lock managers.
#![tactic(auto)]

ghost use Rattle.std.specs.Prelude.{◌≡◌};
ghost use Rattle.dlm_modes.specs.Modes.{go_together, is_at_least, not_valid};
ghost use Rattle.dlm_modes.specs.Laws.{TogetherBothWays, WeakerGoesToo, IsOrder, HoldsLeast, ExclusiveGoesWithNone};

/// A lock's mode, as in the DLM of VMS and Linux (`dlm_mode` in `linux/dlmconstants.h`): null, concurrent read, concurrent
/// write, protected read, protected write and exclusive.
#[derive(Clone, Copy, Debug, PartialEq, Eq)]
pub enum Mode {
    Nl,
    Cr,
    Cw,
    Pr,
    Pw,
    Ex,
}

/// The kind of a message between two nodes' lock managers.
#[derive(Clone, Copy, Debug, PartialEq, Eq)]
pub enum MailWord {
    /// Asks for a lock.
    Request,
    /// Asks for another mode of a held lock.
    Convert,
    /// Gives a lock down to a weaker mode.
    Down,
    /// Grants a lock.
    Grant,
    /// Tells a holder that it stands in another's way.
    Callback,
    /// Reports a held lock to its new master.
    Report,
    /// Ends a node's reports.
    End,
    /// Tells of a new membership.
    View,
}

/// The 32 bytes that a lock carries from one holder to the next. They count for nothing where `valid` is false.
#[derive(Clone, Copy, Debug, PartialEq, Eq)]
pub struct ValueBlock {
    pub bytes: [u8; 32],
    pub valid: bool,
}

impl ValueBlock {
    /// The value block of a lock that nobody has written: zeros, and not valid.
    pub fn new() -> ValueBlock
        ensures { result ≡ not_valid }
    {
        ValueBlock {
            bytes: [0; 32],
            valid: false,
        }
    }
}

/// Whether two nodes may hold a lock in these modes at the same time.
pub fn compatible(a: Mode, b: Mode) -> bool
    ensures { result ≡ go_together a b }
{
    match a {
        Mode::Nl => true,
        Mode::Cr => b != Mode::Ex,
        Mode::Cw => matches!(b, Mode::Nl | Mode::Cr | Mode::Cw),
        Mode::Pr => matches!(b, Mode::Nl | Mode::Cr | Mode::Pr),
        Mode::Pw => matches!(b, Mode::Nl | Mode::Cr),
        Mode::Ex => b == Mode::Nl,
    }
}

/// Whether the first mode is the second or above it.
pub fn covers(a: Mode, b: Mode) -> bool
    ensures { result ≡ is_at_least a b }
{
    match b {
        Mode::Nl => true,
        Mode::Cr => a != Mode::Nl,
        Mode::Cw => matches!(a, Mode::Cw | Mode::Pw | Mode::Ex),
        Mode::Pr => matches!(a, Mode::Pr | Mode::Pw | Mode::Ex),
        Mode::Pw => matches!(a, Mode::Pw | Mode::Ex),
        Mode::Ex => a == Mode::Ex,
    }
}

/// A law: two modes go together whichever is named first.
pub fn modes_go_together_both_ways()
    ensures { TogetherBothWays }
{}

/// A law: what goes with a mode goes with each weaker one.
pub fn a_weaker_mode_goes_too()
    ensures { WeakerGoesToo }
{}

/// A law: the modes are ordered, `Cw` and `Pr` side by side.
pub fn modes_are_ordered()
    ensures order { IsOrder }
    ensures least { HoldsLeast }
{}

/// A law: where one node holds a lock exclusive, no other holds it.
pub fn exclusive_goes_with_none()
    ensures { ExclusiveGoesWithNone }
{}

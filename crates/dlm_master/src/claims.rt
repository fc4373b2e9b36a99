ghost use Rattle.std.specs.Prelude.{◌≡◌, true, is_some, OnOk, OnErr, position, find};
ghost use Rattle.dlm_modes.specs.Modes.{go_together};
ghost use Rattle.dlm_master.specs.Claims.{is_of, is_null, mode_of_node as mode_of_claim, with_claim, without_claim, now_holding, stands_in_way, in_way};
ghost use Rattle.dlm_master.specs.Locks.{cause_of};

use dlm_modes::{Mode, ValueBlock, compatible};
use fencing::least_node;
use no_memory::NoMemory;

/// A node, and the mode in which it holds a lock or for which it waits.
#[derive(Clone, Copy, Debug, PartialEq, Eq)]
pub struct Claim {
    pub node: u8,
    pub mode: Mode,
}

/// Why a node has to wait for a lock.
#[derive(Clone, Copy, Debug, PartialEq, Eq)]
pub enum Cause {
    /// This node holds it in an incompatible mode.
    Held(u8),
    /// This node waits for it in an incompatible mode, and is before.
    Behind(u8),
    /// Not every member has told what it holds.
    Rebuild,
    /// This node's journal waits for replay.
    Slot(u8),
}

/// The answer to a request or a conversion.
#[derive(Clone, Copy, Debug, PartialEq, Eq)]
pub enum Answer {
    /// It is granted, with the lock's value.
    Granted(ValueBlock),
    /// It waits, and this is one thing that it waits for.
    Waiting(Cause),
}

/// What keeps a master from granting anything: a rebuild that isn't done, and the nodes whose slots wait for replay.
#[derive(Clone, Copy, Debug, PartialEq, Eq)]
pub(crate) struct Blocked {
    pub(crate) rebuild: bool,
    pub(crate) waiting: u16,
}

fn place_of(claims: &[Claim], node: u8) -> Option<usize>
    ensures { result ≡ position (is_of node) claims.now }
{
    claims.iter().position(|c| c.node == node)
}

fn claim_of(claims: &[Claim], node: u8) -> Option<Claim>
    ensures { result ≡ find (is_of node) claims.now }
{
    claims.iter().copied().find(|c| c.node == node)
}

/// The mode that the node has among the claims, if it has one.
pub(crate) fn mode_of_node(claims: &[Claim], node: u8) -> Option<Mode>
    ensures { result ≡ mode_of_claim claims.now node }
{
    match claim_of(claims, node) {
        None => None,
        Some(claim) => Some(claim.mode),
    }
}

fn holds_nothing(mode: Mode) -> bool
    ensures { result ≡ is_null mode }
{
    mode == Mode::Nl
}

fn blocks(claim: Claim, node: u8, mode: Mode) -> bool
    ensures { result ≡ stands_in_way node mode claim }
{
    claim.node != node && !compatible(claim.mode, mode)
}

fn claim_in_way(claims: &[Claim], node: u8, mode: Mode) -> Option<Claim>
    ensures { result ≡ find (stands_in_way node mode) claims.now }
{
    claims.iter().copied().find(|c| blocks(*c, node, mode))
}

/// The first node among the claims that stands in the way.
pub(crate) fn first_in_way(claims: &[Claim], node: u8, mode: Mode) -> Option<u8>
    ensures { result ≡ in_way claims.now node mode }
{
    match claim_in_way(claims, node, mode) {
        None => None,
        Some(claim) => Some(claim.node),
    }
}

// Puts the claim in the place of its node's, or last. After want of memory nothing has changed.
fn put_claim(claims: &mut Vec<Claim>, claim: Claim) -> Result<(), NoMemory>
    ensures ok { OnOk result (claims.new.items ≡ with_claim claims.old.items claim) }
    ensures err { OnErr result (claims.new.items ≡ claims.old.items) }
{
    match place_of(claims, claim.node) {
        None => claims.push(claim)?,
        Some(place) => claims[place] = claim,
    }
    Ok(())
}

// Takes the node's claim away, if it has one.
fn drop_claim(claims: &mut Vec<Claim>, node: u8)
    ensures { claims.new.items ≡ without_claim claims.old.items node }
{
    if let Some(place) = place_of(claims, node) {
        claims.remove(place);
    }
}

/// The node holds the lock as it claims, in the place of what it held, or last: in `Nl` it holds none. After want of memory
/// nothing has changed.
pub(crate) fn hold(claims: &mut Vec<Claim>, claim: Claim) -> Result<(), NoMemory>
    ensures ok { OnOk result (claims.new.items ≡ now_holding claims.old.items claim.node claim.mode) }
    ensures err { OnErr result (claims.new.items ≡ claims.old.items) }
{
    if holds_nothing(claim.mode) {
        drop_claim(claims, claim.node);
        return Ok(());
    }
    put_claim(claims, claim)
}

/// The node, which has a claim, has it in this mode from now on. It takes no memory.
pub(crate) fn lower_claim(claims: &mut Vec<Claim>, node: u8, mode: Mode)
    requires { is_some (mode_of_claim claims.old.items node) ≡ true }
    ensures { claims.new.items ≡ now_holding claims.old.items node mode }
{
    if holds_nothing(mode) {
        drop_claim(claims, node);
    } else if let Some(place) = place_of(claims, node) {
        claims[place] = Claim { node, mode };
    }
}

/// Why a node that asks for the lock in this mode has to wait, if it has to.
pub(crate) fn cause_for(
    blocked: Blocked,
    held: &[Claim],
    conversions: &[Claim],
    requests: &[Claim],
    claim: Claim,
) -> Option<Cause>
    ensures { result ≡ cause_of blocked.rebuild blocked.waiting held.now conversions.now requests.now claim.node claim.mode }
{
    if blocked.rebuild {
        return Some(Cause::Rebuild);
    }
    if let Some(slot) = least_node(blocked.waiting) {
        return Some(Cause::Slot(slot));
    }
    if let Some(holder) = first_in_way(held, claim.node, claim.mode) {
        return Some(Cause::Held(holder));
    }
    if let Some(waiter) = first_in_way(conversions, claim.node, claim.mode) {
        return Some(Cause::Behind(waiter));
    }
    match first_in_way(requests, claim.node, claim.mode) {
        None => None,
        Some(waiter) => Some(Cause::Behind(waiter)),
    }
}

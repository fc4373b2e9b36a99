// The formal numbers that a group gives.
ghost use Rattle.std.specs.Prelude.{ℕ, List, ◌≡◌, ◌≢◌, false, OnErr};
ghost use Rattle.std.specs.FinMap.{insert};
ghost use Rattle.drafts.specs.declared.fate.Fate.TheVariants.{Put};
ghost use Rattle.gfs2_layout.specs.Groups.{group_header};
ghost use Rattle.glock_names.specs.Steps.{IfIs, IfNeedBlock, IfDamaged};
ghost use Rattle.glock_names.specs.Views.{HasGroup, IsOfView};
ghost use Rattle.resource_groups.specs.Shown.{IsShown, IsBroken, IsMissing, blocks_of, group_lock};
ghost use Rattle.drafts.specs.Fates.{seen_in};
ghost use Rattle.resource_groups.specs.Putting.{KeepsOthers, overlaid};
ghost use Rattle.resource_groups.specs.Numbering.{IsNumberPut, next_number};

use crate::blocks::header_of;
use crate::putting::put_header;
use drafts::Draft;
use gfs2_layout::GroupHeader;
use glock_names::{CallFault, Group, Step, View};

// The number after the last one.
fn number_after(last: u64) -> u64
    ensures value { result ≡ next_number last }
    ensures some { result ≢ 0 }
{
    match last.checked_add(1) {
        Some(number) => number,
        None => 1,
    }
}

/// Gives the formal number of a new inode, one more than that of the group's last one, and puts it into the group's header; 1 comes
/// after the greatest. It costs two copies of the header's block.
pub fn take_number<V: View>(draft: &mut Draft<'_, V>, group: &Group) -> Result<Step<u64>, CallFault>
    requires { HasGroup (seen_in V.seen draft.old) group.now }
    ensures number { (at : ℕ → List ℕ) → IsShown (seen_in V.seen draft.old) group.now at → IfIs result (λ number. number ≡ next_number (group_header (blocks_of at group.now)).igeneration) }
    ensures some { IfIs result (λ number. number ≢ 0) }
    ensures put { (at : ℕ → List ℕ) → IsShown (seen_in V.seen draft.old) group.now at → IfIs result (λ number. IsNumberPut at (overlaid (seen_in V.seen draft.new) at) group.now number) }
    ensures one { (at : ℕ → List ℕ) → IsShown (seen_in V.seen draft.old) group.now at → IfIs result (λ number.
        draft.new ≡ record draft.old { fates = insert draft.old.fates group.now.addr (Put (group_lock group.now) false (overlaid (seen_in V.seen draft.new) at group.now.addr)) }) }
    ensures needed { IfNeedBlock result (IsMissing (seen_in V.seen draft.old) group.now) }
    ensures which { IfNeedBlock result (λ missing. missing.block ≡ group.now.addr) }
    ensures waits { IfNeedBlock result (λ missing. draft.new ≡ draft.old) }
    ensures damaged { (at : ℕ → List ℕ) → IsShown (seen_in V.seen draft.old) group.now at → IfDamaged result (IsBroken at group.now) }
    ensures kept { IfDamaged result (IsOfView (seen_in V.seen draft.old)) }
    ensures stays { OnErr result (draft.new ≡ draft.old) }
    ensures others { KeepsOthers draft.old draft.new group.now }
{
    let header = match header_of(&*draft, group)? {
        Step::Is(header) => header,
        Step::NeedBlock(missing) => return Ok(Step::NeedBlock(missing)),
    };
    let number = number_after(header.igeneration);
    let header = GroupHeader {
        igeneration: number,
        ..header
    };
    put_header(draft, group, &header)?;
    Ok(Step::Is(number))
}

// Whether a call may have its reply on a tree.
ghost use Rattle.std.specs.Prelude.{◌≡◌, ◌≢◌, ◌↔◌, true, IsTrue, IfOk};
ghost use Rattle.file_tree.specs.Apply.{TakesSpace, apply};
ghost use Rattle.file_tree.specs.declared.reply.Reply.TheVariants as variants;
ghost use Rattle.history_checks.specs.Checks.{MayAnswer, tree_after};

use crate::replies::is_same;
use file_tree::{Call, NoMemory, Reply, Tree};

// Whether the call is one of those that may find no room.
fn takes_space(call: &Call) -> bool
    ensures { IsTrue result ↔ TakesSpace call.now }
{
    match call {
        Call::Create(_)
        | Call::Mkdir(_)
        | Call::Write(..)
        | Call::Truncate(..)
        | Call::Rename(..) => true,
        Call::Unlink(_)
        | Call::Rmdir(_)
        | Call::Read(..)
        | Call::Dread(..)
        | Call::Stat(_)
        | Call::List(_)
        | Call::Sync => false,
    }
}

// Whether the tree would take the call. It copies the tree.
fn is_taken(tree: &Tree, call: &Call) -> Result<bool, NoMemory>
    ensures { IfOk result (λ is. IsTrue is ↔ ((apply call.now tree.now).reply ≡ variants.Ok)) }
{
    let mut after = tree.copy()?;
    let answer = after.apply(call)?;
    Ok(is_same(&answer, &Reply::Ok))
}

// Whether the call may have found no room on the tree.
fn lacks_space(tree: &Tree, call: &Call) -> Result<bool, NoMemory>
    ensures { IfOk result (λ is. IsTrue is ↔ MayAnswer call.now variants.NoSpace tree.now) }
{
    if takes_space(call) {
        is_taken(tree, call)
    } else {
        Ok(false)
    }
}

// Whether the tree answers the call so, which isn't that there was no room; the tree is then that after it.
fn takes(tree: &mut Tree, call: &Call, reply: &Reply) -> Result<bool, NoMemory>
    requires { reply.now ≢ variants.NoSpace }
    ensures answers { IfOk result (λ is. IsTrue is ↔ MayAnswer call.now reply.now tree.old) }
    ensures tree { IfOk result (λ is. is ≡ true → tree.new ≡ tree_after call.now reply.now tree.old) }
{
    let answer = tree.apply(call)?;
    Ok(is_same(&answer, reply))
}

/// Whether the call may have this reply on the tree, which is then that after it. A call that found no room costs a copy of the tree.
pub(crate) fn answers(tree: &mut Tree, call: &Call, reply: &Reply) -> Result<bool, NoMemory>
    ensures answers { IfOk result (λ is. IsTrue is ↔ MayAnswer call.now reply.now tree.old) }
    ensures tree { IfOk result (λ is. is ≡ true → tree.new ≡ tree_after call.now reply.now tree.old) }
{
    match reply {
        Reply::NoSpace => lacks_space(&*tree, call),
        _ => takes(tree, call, reply),
    }
}

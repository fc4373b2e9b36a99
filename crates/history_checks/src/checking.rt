// Whether a history is legal.
ghost use Rattle.std.specs.Prelude.{◌↔◌, IfOk, IsTrue};
ghost use Rattle.cluster_history.specs.History.{AllAnswer};
ghost use Rattle.cluster_history.specs.Losses.{replied};
ghost use Rattle.history_checks.specs.Checks.{Says};

use crate::answering::answers;
use crate::living::alive;
use cluster_history::{Item, living_goes_on};
use file_tree::{NoMemory, Tree};
use std::alloc::Global;

/// Whether a history is legal, or the least length of a front of it that isn't.
#[derive(Clone, Copy, Debug, PartialEq, Eq)]
pub enum Verdict {
    Legal,
    Fails(u64),
}

// Whether these calls answer, one by one from the start, what they were answered.
fn all_answer(calls: &[Item], start: &Tree) -> Result<bool, NoMemory>
    ensures { IfOk result (λ all. IsTrue all ↔ AllAnswer (replied calls.now) start.now) }
{
    let mut tree = start.copy()?;
    for item in calls {
        if let Item::Call { call, reply, .. } = item {
            if !answers(&mut tree, call, reply)? {
                return Ok(false);
            }
        }
    }
    Ok(true)
}

/// Whether in each front of a history the calls that are alive answer, one by one from the start, what they were answered; or
/// the least length of a front in which they don't. The plain check: it takes each front from its beginning, with a copy of the
/// start and of the calls.
pub fn is_legal(alloc: Global, items: &[Item], start: &Tree) -> Result<Verdict, NoMemory>
    ensures { IfOk result (λ verdict. Says verdict items.now start.now) }
{
    living_goes_on();
    for n in 0..=items.len() {
        let calls = alive(alloc, &items[..n])?;
        if !all_answer(&calls, start)? {
            return Ok(Verdict::Fails(n as u64));
        }
    }
    Ok(Verdict::Legal)
}

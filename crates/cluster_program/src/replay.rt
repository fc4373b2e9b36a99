ghost use Rattle.std.specs.Prelude.{◌≡◌, ℕ, IfOk};
ghost use Rattle.std.specs.List.{AllByRecursion};
ghost use Rattle.kept_profiles.specs.Laws.{IsLineOfScript};
ghost use Rattle.script_lang.specs.OneNode.{IsOneNode};
ghost use Rattle.script_lang.specs.WellFormed.{IsWellFormed};
ghost use Rattle.cluster_program.specs.Course.{replay_script as the_script};

use file_tree::Name;
use no_memory::NoMemory;
use script_lang::{Client, Script};
use std::alloc::Global;

/// The script that a replay runs: one node, and a client of it that has no lines.
pub(crate) fn replay_script(alloc: Global) -> Result<Script, NoMemory>
    ensures script { IfOk result (λ script. script ≡ the_script) }
    ensures form { IfOk result IsOneNode }
    ensures well { IfOk result IsWellFormed }
    ensures small { IfOk result (λ script. AllByRecursion IsLineOfScript script.lines) }
{
    let name = Name::new(vec![in alloc; b'c']?);
    let client = Client { name, node: 1 };
    Ok(Script {
        nodes: 1,
        clients: vec![in alloc; client]?,
        armed: Vec::new(alloc),
        lines: Vec::new(alloc),
    })
}

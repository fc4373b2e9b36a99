ghost use Rattle.std.specs.Prelude.{◌≡◌, ◌≤◌, ℕ, List, IfOk, IfErr, None};
ghost use Rattle.std.specs.List.{AllByRecursion};
ghost use Rattle.kept_profiles.specs.Laws.{IsLineOfScript};
ghost use Rattle.script_lang.specs.Grammar.{script_read, Script as TheScript};
ghost use Rattle.script_lang.specs.OneNode.{IsOneNode};
ghost use Rattle.script_lang.specs.WellFormed.{IsWellFormed};
ghost use Rattle.script_lang.specs.Foreign.{first_foreign};
ghost use Rattle.cluster_program.specs.Course.{HasRead, LacksScript};
ghost use Rattle.cluster_program.specs.EndStatuses.{status_of_input, status_of_refusal};

use crate::input::{InputFault, read_text};
use run_reports::{Status, Unbuilt};
use script_lang::{Script, ScriptRefusal, first_foreign_line, limit_decides, parse};
use script_laws::a_read_script_has_bytes;
use std::alloc::Global;
use stream_io::Source;

fn not_built(line: u32) -> Status
    ensures { result ≡ Status.NotBuilt (Unbuilt.Script line) }
{
    Status::NotBuilt {
        part: Unbuilt::Script { line },
    }
}

// How a command ends whose script was not read.
fn unread(fault: InputFault) -> Status
    ensures { result ≡ status_of_input fault }
{
    match fault {
        InputFault::Fault(rise) => Status::ScriptFault {
            before: rise.before,
            after: rise.after,
        },
        InputFault::NoMemory => Status::NoMemory,
    }
}

// How a command ends whose script is none.
fn refused(refusal: ScriptRefusal) -> Status
    ensures { result ≡ status_of_refusal refusal }
{
    match refusal {
        ScriptRefusal::Bad { line, column } => Status::BadScript { line, column },
        ScriptRefusal::NoMemory => Status::NoMemory,
    }
}

/// Reads a script to its end, or says how the command ends without one.
pub(crate) fn read_script<S: Source>(alloc: Global, source: &mut S) -> Result<Script, Status>
    ensures script { IfOk result (λ s. (text : List ℕ) × HasRead (S.left source.old) (S.left source.new) text
        × (script_read text ≡ TheScript s)) }
    ensures built { IfOk result (λ s. (first_foreign s ≡ None) × IsOneNode s) }
    ensures well_formed { IfOk result IsWellFormed }
    ensures small { IfOk result (λ s. AllByRecursion IsLineOfScript s.lines) }
    ensures none { IfErr result (LacksScript (S.left source.old) (S.left source.new) (S.faults source.old) (S.faults source.new)) }
    ensures later { S.faults source.old ≤ S.faults source.new }
{
    limit_decides();
    a_read_script_has_bytes();
    let text = match read_text(alloc, source) {
        Ok(text) => text,
        Err(fault) => return Err(unread(fault)),
    };
    let script = match parse(alloc, &text) {
        Ok(script) => script,
        Err(refusal) => return Err(refused(refusal)),
    };
    match first_foreign_line(&script) {
        None => Ok(script),
        Some(line) => Err(not_built(line)),
    }
}

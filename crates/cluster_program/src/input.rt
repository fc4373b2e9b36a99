ghost use Rattle.std.specs.Prelude.{◌≡◌, ◌≤◌, ◌<◌, ◌⊎◌, length, IfOk, IfErr};
ghost use Rattle.std.specs.Io.KnownBytes.{Consumes, IsAtEnd};
ghost use Rattle.script_lang.specs.Grammar.{script_limit};
ghost use Rattle.cluster_program.specs.Input.{InputHasCause};

use fault_counts::Rise;
use std::alloc::{AllocError, Global};
use stream_io::Source;

// How many bytes a script has at most. Once one more was read, what follows decides nothing.
const SCRIPT_LIMIT: usize = 1_048_576;

/// Why the text of a script was not read.
#[derive(Clone, Copy, Debug, PartialEq, Eq)]
pub(crate) enum InputFault {
    Fault(Rise),
    NoMemory,
}

impl From<AllocError> for InputFault {
    ghost use Rattle.std.specs.Prelude.{◌≡◌};
    ghost use Rattle.cluster_program.specs.declared.input.InputFault.TheVariants.{NoMemory};

    ghost from_gives = { λ _ e. e ≡ NoMemory };

    fn from(_: AllocError) -> Self {
        InputFault::NoMemory
    }
}

/// Reads a source to its end, or until it gave more than a script may have.
pub(crate) fn read_text<S: Source>(alloc: Global, source: &mut S) -> Result<Vec<u8>, InputFault>
    ensures bytes { IfOk result (λ v. Consumes (S.left source.old) (S.left source.new) v.items) }
    ensures end { IfOk result (λ v. IsAtEnd (S.left source.new) ⊎ (script_limit < length v.items)) }
    ensures cause { IfErr result (InputHasCause (S.faults source.old) (S.faults source.new)) }
    ensures later { S.faults source.old ≤ S.faults source.new }
{
    let mut bytes = Vec::new(alloc);
    let mut chunk = [0u8; 512];
    for _turn in 0..SCRIPT_LIMIT + 1 {
        let before = source.faults();
        let Ok(count) = source.take(&mut chunk) else {
            return Err(InputFault::Fault(Rise {
                before,
                after: source.faults(),
            }));
        };
        if count == 0 {
            return Ok(bytes);
        }
        bytes.extend_from_slice(&chunk[..count])?;
        if bytes.len() > SCRIPT_LIMIT {
            return Ok(bytes);
        }
    }
    Ok(bytes)
}

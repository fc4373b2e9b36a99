ghost use Rattle.std.specs.Prelude.{◌≡◌, ◌+◌, ◌<◌, ◌^◌, ◌↔◌, map, length, IsNone};
ghost use Rattle.script_lang.specs.WellFormed.{IsWellFormed};
ghost use Rattle.script_lang.specs.OneNode.{IsOneNode};
ghost use Rattle.script_lang.specs.Foreign.{is_own_call, is_own_line, first_not, first_foreign};

use crate::{Line, Script};
use file_tree::Call;

fn runs_call(call: &Call) -> bool
    ensures { result ≡ is_own_call call.now }
{
    match call {
        Call::Dread(_, _, _) => false,
        _ => true,
    }
}

fn runs_line(line: &Line) -> bool
    ensures { result ≡ is_own_line line.now }
{
    match line {
        Line::Call { client: _, call } => runs_call(call),
        Line::Wait => true,
        Line::Crash(_) => true,
        Line::Join(_) => false,
    }
}

// The first of these lines that one node cannot run, where the first of them has this number.
fn first_among(lines: &[Line], first: u32) -> Option<u32>
    requires { first + length lines.now < 2 ^ 32 }
    ensures { result ≡ first_not first (map is_own_line lines.now) }
{
    let mut number = first;
    for line in lines {
        if !runs_line(line) {
            return Some(number);
        }
        number += 1;
    }
    None
}

/// The number, from 1 as in its text, of the first line of a script that one node alone cannot run; `None` where
/// it can run the whole. One node has clients of its own, whose calls are all but `dread`, and which wait; and it may crash, once and for all. It goes over the script
/// once.
pub fn first_foreign_line(script: &Script) -> Option<u32>
    requires { IsWellFormed script.now }
    ensures first { result ≡ first_foreign script.now }
    ensures form { IsNone result ↔ IsOneNode script.now }
{
    if script.nodes != 1 {
        return Some(1);
    }
    let above = 2 + script.clients.as_slice().len() as u32 + script.armed.as_slice().len() as u32;
    first_among(script.lines.as_slice(), above)
}

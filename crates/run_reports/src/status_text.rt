ghost use Rattle.std.specs.Prelude.{◌≡◌, ◌++◌, ◌∷◌, ◌≤◌, ℕ, IfOk, slice_get, codes, IsTrue};
ghost use Rattle.std.specs.List.{flat_map};
ghost use Rattle.script_lang.specs.declared.script.Client.{Client as TheClient};
ghost use Rattle.text_words.specs.Words.{word, number};
ghost use Rattle.trace_text.specs.Text.{lock_text, state_text};
ghost use Rattle.run_reports.specs.StatusText.{field_text, rise_text, block_text, device_text, name_of, holder_text, holders_text, waits_text, part_text, ended, line_text, status_lines};

use crate::status::{Status, Unbuilt, WhichSink};
use fencing::has_node;
use glock_names::{LockName, State, Waits};
use image_mount::Field;
use no_memory::NoMemory;
use script_lang::Client;
use text_words::{append, append_number, append_word};
use trace_text::{append_lock, append_state};

fn append_rise(text: &mut Vec<u8>, before: u64, after: u64) -> Result<(), NoMemory>
    ensures { IfOk result (λ _. text.new.items ≡ text.old.items ++ rise_text before after) }
{
    append(text, b" count")?;
    append_number(text, before)?;
    append(text, b" to")?;
    append_number(text, after)
}

// Words, a number, further words, and a number.
fn append_two(
    text: &mut Vec<u8>,
    first: &[u8],
    one: u64,
    second: &[u8],
    two: u64,
) -> Result<(), NoMemory>
    ensures { IfOk result (λ _. text.new.items ≡ text.old.items ++ (first.now ++ number one ++ second.now ++ number two)) }
{
    append(text, first)?;
    append_number(text, one)?;
    append(text, second)?;
    append_number(text, two)
}

/// Puts words and a number behind a text.
pub(crate) fn append_one(text: &mut Vec<u8>, words: &[u8], one: u64) -> Result<(), NoMemory>
    ensures { IfOk result (λ _. text.new.items ≡ text.old.items ++ (words.now ++ number one)) }
{
    append(text, words)?;
    append_number(text, one)
}

fn field_name(field: Field) -> &'static [u8]
    ensures { result.now ≡ field_text field }
{
    match field {
        Field::FsFormat => b"fs_format",
        Field::MultihostFormat => b"multihost_format",
        Field::Bsize => b"bsize",
        Field::BsizeShift => b"bsize_shift",
        Field::Master => b"master",
        Field::Device => b"device",
        Field::Journals => b"journals",
        Field::Journal => b"journal",
        Field::Groups => b"groups",
        Field::GroupBlocks => b"group_blocks",
        Field::Nodes => b"nodes",
        Field::Sequence => b"sequence",
    }
}

// Words and one more.
fn append_words(text: &mut Vec<u8>, words: &[u8], one: &[u8]) -> Result<(), NoMemory>
    ensures { IfOk result (λ _. text.new.items ≡ text.old.items ++ (words.now ++ word one.now)) }
{
    append(text, words)?;
    append_word(text, one)
}

fn append_field(text: &mut Vec<u8>, field: Field, value: u64) -> Result<(), NoMemory>
    ensures { IfOk result (λ _. text.new.items ≡ text.old.items ++ (codes "not profile:" ++ word (field_text field) ++ number value)) }
{
    append_words(text, b"not profile:", field_name(field))?;
    append_number(text, value)
}

fn append_block(text: &mut Vec<u8>, block: Option<u64>) -> Result<(), NoMemory>
    ensures { IfOk result (λ _. text.new.items ≡ text.old.items ++ block_text block) }
{
    match block {
        Some(block) => append_number(text, block),
        None => append(text, b" -"),
    }
}

// The place of a fault, and how its count rose.
fn append_at_block(
    text: &mut Vec<u8>,
    block: Option<u64>,
    before: u64,
    after: u64,
) -> Result<(), NoMemory>
    ensures { IfOk result (λ _. text.new.items ≡ text.old.items ++ (codes " block" ++ block_text block ++ rise_text before after)) }
{
    append(text, b" block")?;
    append_block(text, block)?;
    append_rise(text, before, after)
}

fn append_device_fault(
    text: &mut Vec<u8>,
    node: u8,
    block: Option<u64>,
    before: u64,
    after: u64,
) -> Result<(), NoMemory>
    ensures { IfOk result (λ _. text.new.items ≡ text.old.items ++ device_text node block before after) }
{
    append_one(text, b"device fault: node", u64::from(node))?;
    append_at_block(text, block, before, after)
}

// A fault of a stream, which this word names.
fn append_stream_fault(
    text: &mut Vec<u8>,
    stream: &[u8],
    before: u64,
    after: u64,
) -> Result<(), NoMemory>
    ensures { IfOk result (λ _. text.new.items ≡ text.old.items ++ (stream.now ++ rise_text before after)) }
{
    append(text, stream)?;
    append_rise(text, before, after)
}

fn append_part(text: &mut Vec<u8>, part: Unbuilt) -> Result<(), NoMemory>
    ensures { IfOk result (λ _. text.new.items ≡ text.old.items ++ part_text part) }
{
    match part {
        Unbuilt::Words => append(text, b"words"),
        Unbuilt::Script { line } => append_one(text, b"line", u64::from(line)),
    }
}

fn append_not_built(text: &mut Vec<u8>, part: Unbuilt) -> Result<(), NoMemory>
    ensures { IfOk result (λ _. text.new.items ≡ text.old.items ++ (codes "not built: " ++ part_text part)) }
{
    append(text, b"not built: ")?;
    append_part(text, part)
}

// The node, where it is one of these.
fn append_holder(text: &mut Vec<u8>, nodes: u16, node: u8) -> Result<(), NoMemory>
    requires { node ≤ 8 }
    ensures { IfOk result (λ _. text.new.items ≡ text.old.items ++ holder_text nodes node) }
{
    if has_node(nodes, node) {
        append_number(text, u64::from(node))
    } else {
        Ok(())
    }
}

const NODES: [u8; 8] = [1, 2, 3, 4, 5, 6, 7, 8];

fn append_holders(text: &mut Vec<u8>, nodes: u16) -> Result<(), NoMemory>
    ensures { IfOk result (λ _. text.new.items ≡ text.old.items ++ holders_text nodes) }
{
    let mut rest = NODES.as_slice();
    while let [node, behind @ ..] = rest {
        append_holder(text, nodes, *node)?;
        rest = behind;
    }
    Ok(())
}

// The name of the client at this place; nothing where there is none.
fn append_name(text: &mut Vec<u8>, clients: &[Client], client: u32) -> Result<(), NoMemory>
    ensures { IfOk result (λ _. text.new.items ≡ text.old.items ++ word (name_of (slice_get clients.now client))) }
{
    match clients.get(client as usize) {
        Some(client) => append_word(text, client.name.bytes()),
        None => append_word(text, b""),
    }
}

fn append_wanted(text: &mut Vec<u8>, lock: &LockName, state: State) -> Result<(), NoMemory>
    ensures { IfOk result (λ _. text.new.items ≡ text.old.items ++ (codes " waits" ++ word (lock_text lock.now) ++ word (state_text state))) }
{
    append(text, b" waits")?;
    append_lock(text, lock)?;
    append_state(text, state)
}

fn append_held(text: &mut Vec<u8>, nodes: u16) -> Result<(), NoMemory>
    ensures { IfOk result (λ _. text.new.items ≡ text.old.items ++ (codes " held" ++ holders_text nodes)) }
{
    append(text, b" held")?;
    append_holders(text, nodes)
}

// The line of a client that waits.
fn append_wait(text: &mut Vec<u8>, clients: &[Client], waits: &Waits) -> Result<(), NoMemory>
    ensures { IfOk result (λ _. text.new.items ≡ text.old.items ++ ended (waits_text clients.now waits.now)) }
{
    append(text, b"stuck:")?;
    append_name(text, clients, waits.client)?;
    append_wanted(text, &waits.lock, waits.state)?;
    append_held(text, waits.holders)?;
    append(text, b"\n")
}

fn append_waits(text: &mut Vec<u8>, clients: &[Client], waits: &[Waits]) -> Result<(), NoMemory>
    ensures { IfOk result (λ _. text.new.items ≡ text.old.items ++ flat_map (λ w. ended (waits_text clients.now w)) waits.now) }
{
    let mut rest = waits;
    while let [one, behind @ ..] = rest {
        append_wait(text, clients, one)?;
        rest = behind;
    }
    Ok(())
}

// A status that is told in one line, without its newline.
fn append_line(text: &mut Vec<u8>, status: &Status) -> Result<(), NoMemory>
    ensures { IfOk result (λ _. text.new.items ≡ text.old.items ++ line_text status.now) }
{
    match status {
        Status::Done => append(text, b"done"),
        Status::Usage { word } => append_one(text, b"usage: word", u64::from(*word)),
        Status::BadScript { line, column } => append_two(
            text,
            b"script: line",
            u64::from(*line),
            b" column",
            u64::from(*column),
        ),
        Status::NotProfile { field, value } => append_field(text, *field, *value),
        Status::Damaged { block, rule } => {
            append_two(text, b"damaged: block", *block, b" rule", u64::from(*rule))
        }
        Status::DeviceFault {
            node,
            block,
            before,
            after,
        } => append_device_fault(text, *node, *block, *before, *after),
        Status::ScriptFault { before, after } => {
            append_stream_fault(text, b"script fault:", *before, *after)
        }
        Status::SinkFault { before, after, .. } => {
            append_stream_fault(text, b"trace fault:", *before, *after)
        }
        Status::NoMemory => append(text, b"no memory"),
        Status::StepsSpent { steps } => append_one(text, b"steps spent:", *steps),
        Status::Stuck { .. } => Ok(()),
        Status::TooSmall { needed, found } => {
            append_two(
                text,
                b"too small: needed",
                *needed,
                b" blocks, found",
                *found,
            )
        }
        Status::NotBuilt { part } => append_not_built(text, *part),
    }
}

// A status that is told in one line.
fn append_whole_line(text: &mut Vec<u8>, status: &Status) -> Result<(), NoMemory>
    ensures { IfOk result (λ _. text.new.items ≡ text.old.items ++ ended (line_text status.now)) }
{
    append_line(text, status)?;
    append(text, b"\n")
}

/// Puts the lines of a status at the end of a text: one, but for `Stuck`, which has one for each client that
/// waits, and for a fault of the output itself, which has none.
pub(crate) fn append_status(
    text: &mut Vec<u8>,
    clients: &[Client],
    status: &Status,
) -> Result<(), NoMemory>
    ensures { IfOk result (λ _. text.new.items ≡ text.old.items ++ status_lines clients.now status.now) }
{
    match status {
        Status::SinkFault {
            which: WhichSink::Out,
            ..
        } => Ok(()),
        Status::Stuck { waits } => append_waits(text, clients, waits),
        _ => append_whole_line(text, status),
    }
}

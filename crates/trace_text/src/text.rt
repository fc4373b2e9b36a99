ghost use Rattle.std.specs.Prelude.{◌≡◌, ◌++◌, IfOk, codes};
ghost use Rattle.text_words.specs.Words.{word, number};
ghost use Rattle.trace_text.specs.Kinds.{IsOfLock, IsOfDisk, IsOfNode};
ghost use Rattle.trace_text.specs.Text.{lock_text, state_text, mail_text, lock_item_text, head_text, write_text, item_text, print};

use crate::TraceItem;
use dlm_modes::MailWord;
use file_tree::{Call, Name, NoMemory, Reply, append_call, append_reply};
use glock_names::{LockName, State};
use std::alloc::Global;
use text_words::{append, append_decimal, append_number, append_word};

/// Puts a space and a lock's name at the end: its kind, a slash, and its number.
pub fn append_lock(text: &mut Vec<u8>, lock: &LockName) -> Result<(), NoMemory>
    ensures { IfOk result (λ _. text.new.items ≡ text.old.items ++ word (lock_text lock.now)) }
{
    append_number(text, u64::from(lock.kind))?;
    append(text, b"/")?;
    append_decimal(text, lock.number)
}

/// Puts a space and a state's word at the end.
pub fn append_state(text: &mut Vec<u8>, state: State) -> Result<(), NoMemory>
    ensures { IfOk result (λ _. text.new.items ≡ text.old.items ++ word (state_text state)) }
{
    match state {
        State::Un => append(text, b" un"),
        State::Sh => append(text, b" sh"),
        State::Df => append(text, b" df"),
        State::Ex => append(text, b" ex"),
    }
}

fn append_mail_word(text: &mut Vec<u8>, kind: MailWord) -> Result<(), NoMemory>
    ensures { IfOk result (λ _. text.new.items ≡ text.old.items ++ word (mail_text kind)) }
{
    match kind {
        MailWord::Request => append(text, b" request"),
        MailWord::Convert => append(text, b" convert"),
        MailWord::Down => append(text, b" down"),
        MailWord::Grant => append(text, b" grant"),
        MailWord::Callback => append(text, b" callback"),
        MailWord::Report => append(text, b" report"),
        MailWord::End => append(text, b" end"),
        MailWord::View => append(text, b" view"),
    }
}

// A verb and a number.
fn append_one(text: &mut Vec<u8>, verb: &[u8], n: u64) -> Result<(), NoMemory>
    ensures { IfOk result (λ _. text.new.items ≡ text.old.items ++ (verb.now ++ number n)) }
{
    append(text, verb)?;
    append_number(text, n)
}

// A verb and two numbers.
fn append_two(text: &mut Vec<u8>, verb: &[u8], n: u64, m: u64) -> Result<(), NoMemory>
    ensures { IfOk result (λ _. text.new.items ≡ text.old.items ++ (verb.now ++ number n ++ number m)) }
{
    append_one(text, verb, n)?;
    append_number(text, m)
}

// A verb and three numbers.
fn append_three(text: &mut Vec<u8>, verb: &[u8], n: u64, m: u64, k: u64) -> Result<(), NoMemory>
    ensures { IfOk result (λ _. text.new.items ≡ text.old.items ++ (verb.now ++ number n ++ number m ++ number k)) }
{
    append_two(text, verb, n, m)?;
    append_number(text, k)
}

fn append_lock_item(
    text: &mut Vec<u8>,
    verb: &[u8],
    node: u8,
    lock: &LockName,
    state: State,
) -> Result<(), NoMemory>
    ensures { IfOk result (λ _. text.new.items ≡ text.old.items ++ lock_item_text verb.now node lock.now state) }
{
    append_one(text, verb, u64::from(node))?;
    append_lock(text, lock)?;
    append_state(text, state)
}

fn append_mail(text: &mut Vec<u8>, from: u8, to: u8, kind: MailWord) -> Result<(), NoMemory>
    ensures { IfOk result (λ _. text.new.items ≡ text.old.items ++ item_text (TraceItem.Mail from to kind)) }
{
    append_two(text, b"mail", u64::from(from), u64::from(to))?;
    append_mail_word(text, kind)
}

fn append_write(text: &mut Vec<u8>, node: u8, kind: &[u8], block: u64) -> Result<(), NoMemory>
    ensures { IfOk result (λ _. text.new.items ≡ text.old.items ++ write_text node kind.now block) }
{
    append_one(text, b"write", u64::from(node))?;
    append_word(text, kind)?;
    append_number(text, block)
}

fn append_head(
    text: &mut Vec<u8>,
    node: u8,
    kind: &[u8],
    block: u64,
    sequence: u64,
    upto: u64,
) -> Result<(), NoMemory>
    ensures { IfOk result (λ _. text.new.items ≡ text.old.items ++ head_text node kind.now block sequence upto) }
{
    append_write(text, node, kind, block)?;
    append_number(text, sequence)?;
    append_number(text, upto)
}

fn append_answered(
    alloc: Global,
    text: &mut Vec<u8>,
    node: u8,
    client: &Name,
    number: u64,
    call: &Call,
    reply: &Reply,
) -> Result<(), NoMemory>
    ensures { IfOk result (λ _. text.new.items ≡ text.old.items ++ item_text (TraceItem.Call node client.now number call.now reply.now)) }
{
    append_one(text, b"call", u64::from(node))?;
    append_word(text, client.bytes())?;
    append_number(text, number)?;
    append(text, b" ")?;
    append_call(alloc, text, call)?;
    append(text, b" = ")?;
    append_reply(alloc, text, reply)
}

// A line about a lock.
fn append_of_lock(text: &mut Vec<u8>, item: &TraceItem) -> Result<(), NoMemory>
    requires { IsOfLock item.now }
    ensures { IfOk result (λ _. text.new.items ≡ text.old.items ++ item_text item.now) }
{
    match item {
        TraceItem::Ask { node, lock, state } => append_lock_item(text, b"ask", *node, lock, *state),
        TraceItem::Grant { node, lock, state } => append_lock_item(
            text, b"grant", *node, lock, *state,
        ),
        TraceItem::Callback { node, lock, state } => append_lock_item(
            text,
            b"callback",
            *node,
            lock,
            *state,
        ),
        TraceItem::Down { node, lock, state } => append_lock_item(
            text, b"down", *node, lock, *state,
        ),
        _ => unreachable!(),
    }
}

// A line about what a node reads and writes.
fn append_of_disk(text: &mut Vec<u8>, item: &TraceItem) -> Result<(), NoMemory>
    requires { IsOfDisk item.now }
    ensures { IfOk result (λ _. text.new.items ≡ text.old.items ++ item_text item.now) }
{
    match item {
        TraceItem::Read { node, block } => append_two(text, b"read", u64::from(*node), *block),
        TraceItem::WriteLog { node, block } => append_write(text, *node, b"log", *block),
        TraceItem::WriteHead {
            node,
            block,
            sequence,
            upto,
        } => append_head(text, *node, b"head", *block, *sequence, *upto),
        TraceItem::WriteClean {
            node,
            block,
            sequence,
            upto,
        } => append_head(text, *node, b"clean", *block, *sequence, *upto),
        TraceItem::WriteHome { node, block } => append_write(text, *node, b"home", *block),
        TraceItem::WriteReplay { node, block } => append_write(text, *node, b"replay", *block),
        TraceItem::Barrier { node } => append_one(text, b"barrier", u64::from(*node)),
        TraceItem::Commit {
            node,
            sequence,
            upto,
        } => append_three(text, b"commit", u64::from(*node), *sequence, *upto),
        _ => unreachable!(),
    }
}

// A line about what becomes of a node, or of the nodes.
fn append_of_node(text: &mut Vec<u8>, item: &TraceItem) -> Result<(), NoMemory>
    requires { IsOfNode item.now }
    ensures { IfOk result (λ _. text.new.items ≡ text.old.items ++ item_text item.now) }
{
    match item {
        TraceItem::Join { node } => append_one(text, b"join", u64::from(*node)),
        TraceItem::Full { node, need, free } => append_three(
            text,
            b"full",
            u64::from(*node),
            *need,
            *free,
        ),
        TraceItem::Crash { node } => append_one(text, b"crash", u64::from(*node)),
        TraceItem::Withdraw {
            node,
            before,
            after,
        } => append_three(text, b"withdraw", u64::from(*node), *before, *after),
        TraceItem::Fence { node } => append_one(text, b"fence", u64::from(*node)),
        TraceItem::View { generation } => append_one(text, b"view", *generation),
        TraceItem::Recovered { node, by } => append_two(
            text,
            b"recovered",
            u64::from(*node),
            u64::from(*by),
        ),
        TraceItem::Lost { node, kept } => append_two(text, b"lost", u64::from(*node), *kept),
        TraceItem::Unmount { node } => append_one(text, b"unmount", u64::from(*node)),
        _ => unreachable!(),
    }
}

/// Puts an item at the end of a text, without a newline. Of `print`'s grammar this is a line.
pub fn append_item(alloc: Global, text: &mut Vec<u8>, item: &TraceItem) -> Result<(), NoMemory>
    ensures { IfOk result (λ _. text.new.items ≡ text.old.items ++ item_text item.now) }
{
    match item {
        TraceItem::Ask { .. }
        | TraceItem::Grant { .. }
        | TraceItem::Callback { .. }
        | TraceItem::Down { .. } => append_of_lock(text, item),
        TraceItem::Mail { from, to, word } => append_mail(text, *from, *to, *word),
        TraceItem::Read { .. }
        | TraceItem::WriteLog { .. }
        | TraceItem::WriteHead { .. }
        | TraceItem::WriteClean { .. }
        | TraceItem::WriteHome { .. }
        | TraceItem::WriteReplay { .. }
        | TraceItem::Barrier { .. }
        | TraceItem::Commit { .. } => append_of_disk(text, item),
        TraceItem::Call {
            node,
            client,
            number,
            call,
            reply,
        } => append_answered(alloc, text, *node, client, *number, call, reply),
        TraceItem::Join { .. }
        | TraceItem::Full { .. }
        | TraceItem::Crash { .. }
        | TraceItem::Withdraw { .. }
        | TraceItem::Fence { .. }
        | TraceItem::View { .. }
        | TraceItem::Recovered { .. }
        | TraceItem::Lost { .. }
        | TraceItem::Unmount { .. } => append_of_node(text, item),
    }
}

/// The text of a trace: each item and a newline. Its cost is that of its bytes.
pub fn print(alloc: Global, items: &[TraceItem]) -> Result<Vec<u8>, NoMemory>
    ensures { IfOk result (λ text. text.items ≡ print items.now) }
{
    let mut text = Vec::new(alloc);
    for item in items {
        append_item(alloc, &mut text, item)?;
        append(&mut text, b"\n")?;
    }
    Ok(text)
}

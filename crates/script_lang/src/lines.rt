ghost use Rattle.std.specs.Prelude.{◌≡◌, ◌==◌, ◌&&◌, ◌+◌, ◌-◌, ◌^◌, ◌<◌, ◌≤◌, ◌++◌, ◌∷◌, [], ℕ, List, length, codes, MatchResult, IfOk, OnOk, Some, None};
ghost use Rattle.std.specs.List.{position};
ghost use Rattle.std.specs.Str.{bytes_eq};
ghost use Rattle.script_lang.specs.declared.script.Fate.{Fate as TheFate};
ghost use Rattle.script_lang.specs.declared.script.Line.TheVariants as line;
ghost use Rattle.script_lang.specs.Script.{ScriptValue};
ghost use Rattle.number_words.specs.Numbers.{number_in};
ghost use Rattle.script_lang.specs.Words.{words_in, words_behind, first_as, later, ends, Got, a_word};
ghost use Rattle.script_lang.specs.Grammar as grammar;
ghost use Rattle.script_lang.specs.Reading.{IsWrongAt, IsFault, ReadsInto, IsWithinLimits};

use crate::calls::call_behind;
use crate::line_words::{LineFault, behind_word, end_at, first_word, number_at, word_behind};
use crate::words::{client_word, is_word};
use crate::{Armed, Client, Fate, Line, Script};
use file_tree::{Name, NoMemory};
use std::alloc::Global;

const CLIENT_LIMIT: usize = 64;

// ---- one more part of a script

fn put_client(script: &mut Script, client: Client) -> Result<(), NoMemory>
    ensures { OnOk result (script.new ≡ record script.old { clients = script.old.clients ++ client ∷ [] }) }
{
    script.clients.push(client)?;
    Ok(())
}

fn put_armed(script: &mut Script, armed: Armed) -> Result<(), NoMemory>
    ensures { OnOk result (script.new ≡ record script.old { armed = script.old.armed ++ armed ∷ [] }) }
{
    script.armed.push(armed)?;
    Ok(())
}

fn put_line(script: &mut Script, line: Line) -> Result<(), NoMemory>
    ensures { OnOk result (script.new ≡ grammar.with_line script.old line) }
{
    script.lines.push(line)?;
    Ok(())
}

// ---- the first line

fn nodes_line(script: &mut Script, word: &[u8], words: &[u8]) -> Result<(), LineFault>
    ensures { ReadsInto (grammar.nodes_line script.old (word.now ∷ words_behind words.now)) script.new result }
{
    if !is_word(word, b"nodes") {
        return Err(LineFault::Wrong { word: 0 });
    }
    let (nodes, words) = number_at(words, 1, 1, 8)?;
    end_at(words, 2)?;
    script.nodes = nodes as u8;
    Ok(())
}

// ---- clients

fn has_client(clients: &[Client], name: &[u8]) -> bool
    ensures { result ≡ grammar.has_client clients.now name.now }
{
    clients.iter().any(|client| client.name.bytes() == name)
}

// A name that no client has yet.
fn new_client(alloc: Global, clients: &[Client], word: &[u8]) -> Result<Option<Name>, NoMemory>
    ensures { IfOk result (λ name. name ≡ grammar.new_client clients.now word.now) }
{
    if has_client(clients, word) {
        Ok(None)
    } else {
        client_word(alloc, word)
    }
}

// The next word as a name that no client has yet.
fn new_client_at<'a>(
    alloc: Global,
    clients: &[Client],
    words: &'a [u8],
) -> Result<(Name, &'a [u8]), LineFault>
    ensures { MatchResult result (λ p. first_as (grammar.new_client clients.now) (words_behind words.now) ≡ Some (p.0, words_behind p.1.now))
        (IsWrongAt 1 (first_as (grammar.new_client clients.now) (words_behind words.now) ≡ None)) }
{
    let Some((word, behind)) = word_behind(words) else {
        return Err(LineFault::Wrong { word: 1 });
    };
    let Some(name) = new_client(alloc, clients, word)? else {
        return Err(LineFault::Wrong { word: 1 });
    };
    Ok((name, behind))
}

fn client_line(alloc: Global, script: &mut Script, words: &[u8]) -> Result<(), LineFault>
    ensures { ReadsInto (later (grammar.client_line script.old (words_behind words.now))) script.new result }
{
    let (name, words) = new_client_at(alloc, script.clients.as_slice(), words)?;
    let words = behind_word(words, b"on", 2)?;
    let (node, words) = number_at(words, 3, 1, u64::from(script.nodes))?;
    end_at(words, 4)?;
    put_client(
        script,
        Client {
            name,
            node: node as u8,
        },
    )?;
    Ok(())
}

// Whether a line of this word is a client's, which come before all else.
fn begins_client(script: &Script, word: &[u8]) -> bool
    ensures { result ≡ (bytes_eq word.now (codes "client") && grammar.may_have_client script.now) }
{
    is_word(word, b"client")
        && script.armed.is_empty()
        && script.lines.is_empty()
        && script.clients.len() < CLIENT_LIMIT
}

// ---- crashes

// The bit of a node.
fn bit_of(node: u8) -> u16
    requires { node < 16 }
    ensures { result ≡ 2 ^ node }
{
    2u16.pow(u32::from(node))
}

// What the write becomes at which a node crashes; the word is the fifth of its line.
fn fate_at(words: &[u8]) -> Result<Fate, LineFault>
    ensures { MatchResult result
        (λ fate. (armed : TheFate → ScriptValue) → later (later (later (later (grammar.fate_read armed (words_behind words.now))))) ≡ Got (armed fate))
        (λ f. (armed : TheFate → ScriptValue) → IsFault (later (later (later (later (grammar.fate_read armed (words_behind words.now)))))) f) }
{
    let Some((word, words)) = word_behind(words) else {
        return Err(LineFault::Wrong { word: 4 });
    };
    if is_word(word, b"old") {
        end_at(words, 5)?;
        return Ok(Fate::Old);
    }
    if is_word(word, b"new") {
        end_at(words, 5)?;
        return Ok(Fate::New);
    }
    if is_word(word, b"torn") {
        let (bytes, words) = number_at(words, 5, 1, 4095)?;
        end_at(words, 6)?;
        return Ok(Fate::Torn(bytes as u32));
    }
    Err(LineFault::Wrong { word: 4 })
}

// A crash at a write.
fn armed_line(script: &mut Script, node: u8, words: &[u8]) -> Result<(), LineFault>
    ensures { ReadsInto (later (later (later (grammar.armed_line script.old node (words_behind words.now))))) script.new result }
{
    let (write, words) = number_at(words, 3, 1, u64::MAX)?;
    let fate = fate_at(words)?;
    put_armed(script, Armed { node, write, fate })?;
    Ok(())
}

fn is_armed(armed: &[Armed], node: u8) -> bool
    ensures { result ≡ grammar.is_armed armed.now node }
{
    armed.iter().any(|armed| armed.node == node)
}

// Whether this word goes on to a crash at a write of the node.
fn goes_on_to_write(script: &Script, node: u8, word: &[u8]) -> bool
    ensures { result ≡ (bytes_eq word.now (codes "at") && grammar.may_arm script.now node) }
{
    is_word(word, b"at") && script.lines.is_empty() && !is_armed(script.armed.as_slice(), node)
}

// What stands behind a crash's node.
fn after_node(script: &mut Script, node: u8, words: &[u8]) -> Result<(), LineFault>
    requires { node < 16 }
    ensures { ReadsInto (later (later (grammar.after_node script.old node (words_behind words.now)))) script.new result }
{
    let Some((word, words)) = word_behind(words) else {
        put_line(script, Line::Crash(bit_of(node)))?;
        return Ok(());
    };
    if goes_on_to_write(script, node, word) {
        armed_line(script, node, words)
    } else {
        Err(LineFault::Wrong { word: 2 })
    }
}

// A crash of all nodes.
fn crash_all(script: &mut Script, words: &[u8]) -> Result<(), LineFault>
    requires { IsWithinLimits script.old }
    ensures { ReadsInto (later (later (ends (grammar.with_line script.old (line.Crash (2 ^ (script.old.nodes + 1) - 2))) (words_behind words.now)))) script.new result }
{
    end_at(words, 2)?;
    let nodes = bit_of(script.nodes + 1) - 2;
    put_line(script, Line::Crash(nodes))?;
    Ok(())
}

// A crash of one node.
fn crash_one(script: &mut Script, words: &[u8]) -> Result<(), LineFault>
    requires { IsWithinLimits script.old }
    ensures { ReadsInto (later (a_word (number_in 1 script.old.nodes) (grammar.after_node script.old) (words_behind words.now))) script.new result }
{
    let (node, words) = number_at(words, 1, 1, u64::from(script.nodes))?;
    after_node(script, node as u8, words)
}

fn crash_line(script: &mut Script, words: &[u8]) -> Result<(), LineFault>
    requires { IsWithinLimits script.old }
    ensures { ReadsInto (later (grammar.crash_line script.old (words_behind words.now))) script.new result }
{
    let Some((word, behind)) = word_behind(words) else {
        return Err(LineFault::Wrong { word: 1 });
    };
    if is_word(word, b"all") {
        crash_all(script, behind)
    } else {
        crash_one(script, words)
    }
}

// ---- the other lines

fn wait_line(script: &mut Script, words: &[u8]) -> Result<(), LineFault>
    ensures { ReadsInto (later (ends (grammar.with_line script.old line.Wait) (words_behind words.now))) script.new result }
{
    end_at(words, 1)?;
    put_line(script, Line::Wait)?;
    Ok(())
}

fn join_line(script: &mut Script, words: &[u8]) -> Result<(), LineFault>
    ensures { ReadsInto (later (a_word (number_in 1 script.old.nodes) (λ node. ends (grammar.with_line script.old (line.Join node))) (words_behind words.now))) script.new result }
{
    let (node, words) = number_at(words, 1, 1, u64::from(script.nodes))?;
    end_at(words, 2)?;
    put_line(script, Line::Join(node as u8))?;
    Ok(())
}

// Whether a word is this name and a colon.
fn is_before_colon(name: &[u8], word: &[u8]) -> bool
    ensures { result ≡ bytes_eq word.now (name.now ++ codes ":") }
{
    if word.is_empty() {
        return false;
    }
    let end = word.len() - 1;
    word[end] == b':' && is_word(&word[..end], name)
}

// The place of the client whose name and a colon a word is.
fn client_of(clients: &[Client], word: &[u8]) -> Option<usize>
    ensures { result ≡ grammar.client_before_colon clients.now word.now }
{
    clients
        .iter()
        .position(|client| is_before_colon(client.name.bytes(), word))
}

fn call_line(alloc: Global, script: &mut Script, word: &[u8], words: &[u8]) -> Result<(), LineFault>
    requires { IsWithinLimits script.old }
    ensures { ReadsInto (grammar.call_line script.old (word.now ∷ words_behind words.now)) script.new result }
{
    let Some(client) = client_of(script.clients.as_slice(), word) else {
        return Err(LineFault::Wrong { word: 0 });
    };
    let call = call_behind(alloc, words)?;
    put_line(
        script,
        Line::Call {
            client: client as u32,
            call,
        },
    )?;
    Ok(())
}

// A line behind the first.
fn later_line(
    alloc: Global,
    script: &mut Script,
    word: &[u8],
    words: &[u8],
) -> Result<(), LineFault>
    requires { IsWithinLimits script.old }
    ensures { ReadsInto (grammar.later_line script.old word.now (words_behind words.now)) script.new result }
{
    if begins_client(script, word) {
        return client_line(alloc, script, words);
    }
    if script.clients.as_slice().is_empty() {
        return Err(LineFault::Wrong { word: 0 });
    }
    if is_word(word, b"crash") {
        return crash_line(script, words);
    }
    if is_word(word, b"wait") {
        return wait_line(script, words);
    }
    if is_word(word, b"join") {
        return join_line(script, words);
    }
    call_line(alloc, script, word, words)
}

/// Reads a line into the script that the lines above it are.
pub(crate) fn read_line(alloc: Global, script: &mut Script, line: &[u8]) -> Result<(), LineFault>
    requires { IsWithinLimits script.old }
    ensures { ReadsInto (grammar.line_read script.old (words_in line.now)) script.new result }
{
    let (word, words) = first_word(line);
    if script.nodes == 0 {
        nodes_line(script, word, words)
    } else {
        later_line(alloc, script, word, words)
    }
}

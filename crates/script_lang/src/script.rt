use file_tree::{Call, Name};
use std::marker::Model;

/// A client, which sends its calls to one node. Its name has 1 to 16 lower-case letters and digits.
#[derive(Drop)]
pub struct Client {
    pub name: Name,
    pub node: u8,
}

/// What the write at which a node crashes becomes: it stays as it was, comes whole, or its first bytes do.
#[derive(Clone, Copy, Debug, PartialEq, Eq)]
pub enum Fate {
    Old,
    New,
    Torn(u32),
}

/// A crash of a node at its write of this number, counted from 1 through the whole run.
#[derive(Clone, Copy, Debug, PartialEq, Eq)]
pub struct Armed {
    pub node: u8,
    pub write: u64,
    pub fate: Fate,
}

/// A line of a script.
#[derive(Drop)]
pub enum Line {
    /// A client, by its place in the script from 0, makes a call.
    Call { client: u32, call: Call },
    /// All lines above are answered before any below begins.
    Wait,
    /// The nodes whose bits are set stop.
    Crash(u16),
    /// The node joins again.
    Join(u8),
}

/// A script: how many nodes there are, the clients, the crashes at writes, and the lines.
#[derive(Drop)]
pub struct Script {
    pub nodes: u8,
    pub clients: Vec<Client>,
    pub armed: Vec<Armed>,
    pub lines: Vec<Line>,
}

impl Model for Script {
    ghost use Rattle.script_lang.specs.Script.{ScriptValue};

    ghost Value = { ScriptValue };

    ghost view = { λ s. record { nodes = s.nodes; clients = s.clients.items; armed = s.armed.items; lines = s.lines.items } };
}

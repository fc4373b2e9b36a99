//! Who is a member of the cluster, who is fenced, and whose slot waits for replay. A set of nodes is a number whose bit i is
//! set where node i belongs to it, for nodes 0 to 15.
#![tactic(auto)]

ghost use Rattle.std.specs.Prelude.{◌≡◌, ◌+◌, ◌^◌, ◌<◌, length, slice_get, filter};
ghost use Rattle.std.specs.List.{AllByRecursion};
ghost use Rattle.fencing.specs.NodeSets.{has, with_node, without_node, nodes_of, least_of};
ghost use Rattle.fencing.specs.Members.{stopped, fenced_too, recovered_too, admitted, in_next_view, replayer_of};
ghost use Rattle.fencing.specs.Laws.{AddsOne, TakesOne};

static NODES: [u8; 16] = [0, 1, 2, 3, 4, 5, 6, 7, 8, 9, 10, 11, 12, 13, 14, 15];

/// Whether the node belongs to the set.
pub fn has_node(set: u16, node: u8) -> bool
    requires { node < 16 }
    ensures { result ≡ has set node }
{
    set & (1 << node) != 0
}

/// The set with the node.
pub fn add_node(set: u16, node: u8) -> u16
    requires { node < 16 }
    ensures { result ≡ with_node set node }
{
    set | (1 << node)
}

/// The set without the node.
pub fn take_node(set: u16, node: u8) -> u16
    requires { node < 16 }
    ensures { result ≡ without_node set node }
{
    set & !(1 << node)
}

/// The least node of the set, if it has one.
pub fn least_node(set: u16) -> Option<u8>
    ensures { result ≡ least_of set }
{
    NODES.iter().copied().find(|node| has_node(set, *node))
}

/// How many nodes the set has.
pub fn count_nodes(set: u16) -> usize
    ensures { result ≡ length (nodes_of set) }
{
    NODES.iter().filter(|node| has_node(set, **node)).count()
}

// The node at a place among those of the set in the list.
fn node_among(set: u16, nodes: &[u8], place: usize) -> Option<u8>
    requires { AllByRecursion (λ n. n < 16) nodes.now }
    ensures { result ≡ slice_get (filter (has set) nodes.now) place }
{
    match nodes {
        [] => None,
        [node, rest @ ..] => {
            if !has_node(set, *node) {
                node_among(set, rest, place)
            } else if place == 0 {
                Some(*node)
            } else {
                node_among(set, rest, place - 1)
            }
        }
    }
}

/// The node at a place of the set, in rising order, the first one at place 0.
pub fn node_at(set: u16, place: usize) -> Option<u8>
    ensures { result ≡ slice_get (nodes_of set) place }
{
    node_among(set, &NODES, place)
}

/// The nodes of a cluster. A node that stops is no member any more, and its slot waits until its journal is replayed. No node
/// but itself may write to its blocks before it is fenced.
#[derive(Clone, Copy, Debug, PartialEq, Eq)]
pub struct Membership {
    /// The number of the view: how often the members have changed.
    pub generation: u64,
    /// The nodes that run.
    pub members: u16,
    /// The nodes whose writes the disk refuses.
    pub fenced: u16,
    /// The nodes whose journals have to be replayed.
    pub waiting: u16,
}

impl Membership {
    /// The node stops: from now on its slot waits.
    pub fn stop(&mut self, node: u8)
        requires { node < 16 }
        ensures { self.new ≡ stopped self.old node }
    {
        self.members = take_node(self.members, node);
        self.waiting = add_node(self.waiting, node);
    }

    /// The node is fenced.
    pub fn fence(&mut self, node: u8)
        requires { node < 16 }
        ensures { self.new ≡ fenced_too self.old node }
    {
        self.fenced = add_node(self.fenced, node);
    }

    /// The node's journal is replayed: its slot doesn't wait any more.
    pub fn recovered(&mut self, node: u8)
        requires { node < 16 }
        ensures { self.new ≡ recovered_too self.old node }
    {
        self.waiting = take_node(self.waiting, node);
    }

    /// The node is a member, and not fenced.
    pub fn admit(&mut self, node: u8)
        requires { node < 16 }
        ensures { self.new ≡ admitted self.old node }
    {
        self.members = add_node(self.members, node);
        self.fenced = take_node(self.fenced, node);
    }

    /// The next view begins.
    pub fn change(&mut self)
        requires { self.old.generation + 1 < 2 ^ 64 }
        ensures { self.new ≡ in_next_view self.old }
    {
        self.generation += 1;
    }

    /// Who replays the journals of the slots that wait: the least member. `None` exactly where nothing waits or nobody runs.
    pub fn replayer(&self) -> Option<u8>
        ensures { result ≡ replayer_of self.now }
    {
        if self.waiting == 0 {
            None
        } else {
            least_node(self.members)
        }
    }
}

/// A law: adding a node adds it and changes no other, and so does taking one.
pub fn a_node_comes_or_goes_alone()
    ensures adds { AddsOne }
    ensures takes { TakesOne }
{}

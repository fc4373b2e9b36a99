//! The machine's disk as an image with writes in flight to it, and what its outcomes stand for. The functions do nothing: their contracts are the laws.
#![tactic(auto)]

ghost use Rattle.image_disks.specs.Disks.{OutcomesStand};
ghost use Rattle.image_disks.specs.Lone.{ImagesBeginAtRest, LoneOutcomesStand};

/// A law: an outcome of the image that is one of the machine's disk stands, its journals replayed, for the tree of the history with a loss for each life that has none.
pub fn outcomes_stand()
    ensures { OutcomesStand }
{}

/// A law: of one node alone, the image of each outcome stands, its journals replayed, for the tree of its calls with a loss by the rule.
pub fn what_is_left_of_one_node_stands()
    ensures { LoneOutcomesStand }
{}

/// A law: an image that stands as it lies, each journal clean, is the disk on which a node begins alone.
pub fn an_image_at_rest_is_a_start()
    ensures { ImagesBeginAtRest }
{}

//! One node that runs alone on an image, in the cluster's machine: its start, its calls and its log in terms of images and file calls. The functions do nothing: their
//! contracts are the laws.
#![tactic(auto)]

ghost use Rattle.lone_images.specs.Lone.{CallsGoOn, ChangesMakeVersions, ImagesBegin, SpacelessGoesOn, SyncGoesOn};

/// A law: an image that stands as it lies is one on which a node begins alone.
pub fn a_node_begins_on_an_image()
    ensures { ImagesBegin }
{}

/// A law: a call that does what it should over what the node has cached is one that the machine goes on with; so is one for which there is no space, and a sync.
pub fn its_calls_go_on()
    ensures done { CallsGoOn }
    ensures spaceless { SpacelessGoesOn }
    ensures sync { SyncGoesOn }
{}

/// A law: the versions of a log with a call's change are those of the machine's change.
pub fn its_changes_make_versions()
    ensures { ChangesMakeVersions }
{}

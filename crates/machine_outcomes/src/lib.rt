//! Each outcome of an image with writes in flight is one of the machine's disk: a law.
#![tactic(auto)]

ghost use Rattle.machine_outcomes.specs.Outcomes.{OutcomesAreTheMachines};

/// A law: of an image with writes in flight that the machine's disk is, each outcome without a false header can be replayed, and what a
/// replay leaves is what the machine has for one choice of heads.
pub fn outcomes_are_the_machines()
    ensures { OutcomesAreTheMachines }
{}

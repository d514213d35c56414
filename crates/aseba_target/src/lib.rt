//! What a project's node is to those who run it: the shape of its machine, where its named cells
//! lie, and its machine as a system that runs. The laws are functions with an empty body, so that a
//! check proves what they say.
#![tactic(auto)]

ghost use Rattle.aseba_target.specs.Beats.{BeatsAreTicks, TrueBeatsAreEffects};
ghost use Rattle.aseba_target.specs.Node.{FreshMachineIsStarted};
ghost use Rattle.aseba_target.specs.Worked.{ForLoop, KillInExpression, SubCall, WhenEdge};

mod node;

pub use node::{Place, place_named, shape};

/// A run has a beat for each tick.
pub fn beats_are_ticks()
    ensures { BeatsAreTicks }
{}

/// The number of effects that a run counts is that of its true beats.
pub fn true_beats_are_effects()
    ensures { TrueBeatsAreEffects }
{}

/// A fresh machine into which words are loaded, and which is reset then, begins with them.
pub fn fresh_machine_is_started()
    ensures { FreshMachineIsStarted }
{}

/// Small programs come to the lines that were worked by hand.
pub fn worked_runs()
    ensures for_loop { ForLoop }
    ensures sub_call { SubCall }
    ensures when_edge { WhenEdge }
    ensures kill_in_expression { KillInExpression }
{}

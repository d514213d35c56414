//! Tests of the hub: its router over queues in memory, and the switch on one thread. It offers
//! nothing.
#![tactic(auto)]

#[cfg(test)]
mod dice;
#[cfg(test)]
mod hub;
#[cfg(test)]
mod random;
#[cfg(test)]
mod relaying;
#[cfg(test)]
mod routing;
#[cfg(test)]
mod sharing;
#[cfg(test)]
mod turns;

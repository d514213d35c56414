//! Tests of a node of the network: what it says to each message, in its ticks, and on a link. It
//! offers nothing.
#![tactic(auto)]

#[cfg(test)]
mod debugging;
#[cfg(test)]
mod events;
#[cfg(test)]
mod requests;
#[cfg(test)]
mod sessions;
#[cfg(test)]
mod talk;
#[cfg(test)]
mod ticks;

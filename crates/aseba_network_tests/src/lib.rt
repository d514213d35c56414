//! Tests of what is told and recorded of a network. It offers nothing.
#![tactic(auto)]

#[cfg(test)]
mod recordings;

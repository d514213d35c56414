//! Tests of the tools that run a machine: with scripts, on the nodes of projects, and behind links. It offers nothing.
#![tactic(auto)]

#[cfg(test)]
mod nodes;
#[cfg(test)]
mod projects;
#[cfg(test)]
mod scripts;

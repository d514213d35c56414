//! Tests across the passes: sources with what is told of them. It offers nothing.
#![tactic(auto)]

#[cfg(test)]
mod checked;
#[cfg(test)]
mod compiled;
#[cfg(test)]
mod element_text;
#[cfg(test)]
mod expanded;
#[cfg(test)]
mod faults;
#[cfg(test)]
mod generated;

//! Tests of the machine that runs words, and of scripts through which it is driven. It offers nothing.
#![tactic(auto)]

#[cfg(test)]
mod driven;
#[cfg(test)]
mod runs;
#[cfg(test)]
mod scripts;

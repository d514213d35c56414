//! Tests of the tools, from the words of a command line to what they write. It offers nothing.
#![tactic(auto)]

#[cfg(test)]
mod runs;
#[cfg(test)]
mod words;

//! Tests of what every other crate stands on: cells and lists, the natives, texts, the
//! outside, and frames. It offers nothing.
#![tactic(auto)]

#[cfg(test)]
mod frames;
#[cfg(test)]
mod natives;
#[cfg(test)]
mod outside;
#[cfg(test)]
mod sharing;
#[cfg(test)]
mod text_reading;
#[cfg(test)]
mod text_writing;
#[cfg(test)]
mod words;

//! Tests of tokens, trees, projects and messages: how they are read, written and copied. It offers nothing.
#![tactic(auto)]

#[cfg(test)]
mod copies;
#[cfg(test)]
mod limits;
#[cfg(test)]
mod payloads;
#[cfg(test)]
mod projects;
#[cfg(test)]
mod syntax;
#[cfg(test)]
mod tokens;

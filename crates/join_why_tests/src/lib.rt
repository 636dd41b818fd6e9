//! Tests of `join_why`, over its public calls alone.
#![tactic(auto)]

#[cfg(test)]
mod tests;

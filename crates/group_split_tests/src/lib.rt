//! Tests of `group_split`, over its public calls alone. In a crate of their own they are proved over what those calls
//! promise, and a change of a test proves nothing else anew.
#![tactic(auto)]

#[cfg(test)]
mod tests;

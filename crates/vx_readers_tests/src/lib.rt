//! Tests of what the cases of readers can't show: nodes inside a tree, and a file that isn't there.
#![tactic(auto)]

#[cfg(test)]
mod node_tests;

//! Tests of claims: what seats draw in one thread, and in several.
#![tactic(auto)]

#[cfg(test)]
mod claim_tests;

//! Tests of the bound: what seats are answered, in one thread and in several, and which zones are pruned.
#![tactic(auto)]

#[cfg(test)]
mod bound_tests;
#[cfg(test)]
mod mask_tests;

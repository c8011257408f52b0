//! Tests of sources and streams over the system: files, readers and writers of their own.
#![tactic(auto)]

#[cfg(test)]
mod adapter_tests;
#[cfg(test)]
mod file_source_tests;

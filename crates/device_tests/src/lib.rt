//! Tests of the devices in memory and of the real ones.
#![tactic(auto)]

#[cfg(test)]
mod files;
#[cfg(test)]
mod memory;

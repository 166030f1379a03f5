//! Tests that no worked case can hold.
#![tactic(auto)]

#[cfg(test)]
mod bent;
#[cfg(test)]
mod calls;
#[cfg(test)]
mod documents;
#[cfg(test)]
mod tests;

//! Tests of the tokens of Turtle and of what they mean.
#![tactic(auto)]

#[cfg(test)]
mod tests;

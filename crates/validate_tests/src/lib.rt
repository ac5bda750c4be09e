// What is said of walks, worked out by hand.
#![tactic(auto)]

#[cfg(test)]
mod tests;

//! The pool over real threads: which of them run at the same time, and what they draw.
#![tactic(auto)]

#[cfg(test)]
mod tests;

//! What no worked example and no set can show of the libraries: writers and folders that fail, gates, refused memory.
#![tactic(auto)]

#[cfg(test)]
mod tests;

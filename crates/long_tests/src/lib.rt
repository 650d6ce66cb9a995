//! Calls on what is so long that it needs much of the stack. Such a case is a test and no line of a file, since a test is built by one compiler alone, and the
//! other takes more of the stack at each level.
#![tactic(auto)]

#[cfg(test)]
mod trees;

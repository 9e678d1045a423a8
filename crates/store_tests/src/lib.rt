//! Tests of the stores of pages and of the plans on them, on a new tree: each call that takes memory and
//! that no session makes alone, on a path where memory suffices.
#![tactic(auto)]

#[cfg(test)]
mod new_tree;
#[cfg(test)]
mod workflows;

//! What a service answers: histories of accepted requests, the world that they make, and the answer to each request.
//! Definitions and laws; the rules for a node's name and moment also as code.
#![tactic(auto)]

pub mod laws;
mod node_rules;

pub use node_rules::{is_bad_name, is_moment};

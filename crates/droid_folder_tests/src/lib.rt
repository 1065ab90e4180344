//! Tests of folders: their profiles, what differs between a folder and a list of its files, and submissions.
#![tactic(auto)]

#[cfg(test)]
mod folders;
#[cfg(test)]
mod submissions;

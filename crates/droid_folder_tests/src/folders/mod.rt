//! Profiles of folders, and what differs between a folder and a list of its files.

mod command_page;
mod lists;
mod manifests;
mod memory_tree;
mod noting_watcher;
mod profiles;
mod verify;

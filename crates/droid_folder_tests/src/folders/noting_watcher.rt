//! A watcher that notes what it learns.

use droid_cmd_verify::ClearLine;
use droid_frame::Reply;
use droid_tree::{Skipped, Watcher};
use std::alloc::Global;

/// Notes skipped entries and why they were skipped, and counts what was taken. It prints nothing.
#[derive(Drop)]
pub struct NotingWatcher {
    pub skipped: Vec<u8>,
    pub bytes: u64,
    pub folders: u64,
    pub files: u64,
}

impl NotingWatcher {
    pub fn new(alloc: Global) -> NotingWatcher {
        NotingWatcher {
            skipped: Vec::new(alloc),
            bytes: 0,
            folders: 0,
            files: 0,
        }
    }
}

impl Watcher for NotingWatcher {
    fn skipped(&mut self, path: &[u8], why: Skipped) {
        let word: &[u8] = match why {
            Skipped::SameName => b" same name\n",
            Skipped::Refused(_) => b" refused\n",
            _ => b" otherwise\n",
        };
        let _ = self.skipped.extend_from_slice(path);
        let _ = self.skipped.extend_from_slice(word);
    }

    fn held(&mut self, _path: &str, _count: u64) {}

    fn took_bytes(&mut self, _path: &str, count: u32) {
        self.bytes = self.bytes.wrapping_add(u64::from(count));
    }

    fn took_folder(&mut self, _path: &str) {
        self.folders = self.folders.wrapping_add(1);
    }

    fn took_file(&mut self, _path: &str, found: &Reply) {
        if matches!(found, Reply::Finished { .. }) {
            self.files = self.files.wrapping_add(1);
        }
    }
}

impl ClearLine for NotingWatcher {
    fn clear_line(&self) {}
}

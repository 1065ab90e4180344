//! What differs between two inventories, by the public calls of `droid_fixity`, `droid_lists` and
//! `droid_lists`. (How `verify` reads the CSV of a profile is tested in
//! tests/program/folders/verify_rows.py.)

mod cases;
mod memory;
mod nodes;
mod page;
mod texts;

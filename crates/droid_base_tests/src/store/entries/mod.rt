//! A balanced tree of rows beside a plain list, and packed rows.

mod edits;
mod packed_rows;

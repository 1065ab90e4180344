//! Tests of the export. (tests/program has what the built program shows of it: cases, wire/export_parts.py,
//! folders/profile_names.py.)

mod memory;
mod nodes;
mod page;
mod row_texts;
mod writers;

//! Reads the CSV of a profile, counts what is in it, and makes a page of the counts.
//!
//! `html` has pages as trees of elements: no text can become markup. `view` makes the page's tables.
//!
//! A call that returns an `AllocError` fails only if memory runs out. What it was to grow is then of no use: each
//! caller passes the error on, until what was begun is dropped.
#![tactic(auto)]

mod classes;
mod counts;
mod draft;
mod facts;
mod fault;
mod fields;
mod groups;
mod html;
pub mod html_laws;
mod keys;
pub mod laws;
mod lists;
mod ranks;
mod report;
mod row;
pub mod texts;
mod totals;
mod view;

pub use facts::Facts;
pub use fault::ProfileFault;
pub use groups::GroupSum;
pub use html::page::Page;
pub use html::page_text::Escaped;
pub use html::tables::{Body, Table};
pub use keys::Alike;
pub use ranks::{GroupsTotal, list_groups, rank_by_count, rank_by_saved};
pub use report::{Report, read_report};
pub use totals::What;
pub use view::page::report_page;

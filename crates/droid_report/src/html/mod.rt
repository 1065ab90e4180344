//! Pages of HTML as trees of elements: no text can become markup.

pub mod page;
pub mod page_text;
pub mod tables;

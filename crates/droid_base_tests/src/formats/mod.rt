//! Formats that the program reads and writes: registries, exports, signature files, XML, pages.

mod export;
mod html_page;
mod pronom;
mod report_page;
mod signature_page;
mod xml_page;

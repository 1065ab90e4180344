//! Lists of checksums, as `md5sum`, `sha256sum` and the manifests of bags have them.

pub mod checksum_line;
pub mod digest;
pub mod entry;
pub mod form;
pub mod line_content;
pub mod list;
pub mod list_fault;
pub mod manifest_law;
pub mod path;
pub mod path_text;
pub mod text;

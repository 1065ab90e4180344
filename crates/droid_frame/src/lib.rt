//! Frames: requests and replies as bytes, and streams of them.
//!
//! A frame carries one request or reply. The values that it carries are at the top; `reading` makes them of the bytes
//! of a frame, `writing` makes frames of them, and `streams` reads and writes frames on streams. `io` has what reads
//! and writes on streams that may be interrupted or fail.
#![tactic(auto)]

mod blob;
mod body_fault;
pub mod body_laws;
mod criteria;
mod criterion;
mod file_path;
mod filter;
mod frame;
mod hash_kind;
mod hash_value;
mod io;
mod item;
pub mod kinds;
pub mod laws;
mod lengths;
pub mod limit_laws;
mod method;
mod node_kind;
mod reading;
mod record;
mod refusal;
mod reply;
mod request;
mod running_hash;
mod streams;
mod text;
mod texts;
mod versions;
mod writing;

pub use blob::Blob;
pub use body_fault::BodyFault;
pub use criteria::Criteria;
pub use criterion::Criterion;
pub use file_path::is_file_path;
pub use filter::Filter;
pub use frame::{Frame, NUMBER_LIMIT, mark};
pub use hash_kind::HashKind;
pub use hash_value::HashValue;
pub use io::buffer::{fill, read_some};
pub use io::input::read_to_end;
pub use io::output::{WriteState, write_all};
pub use io::recorded_stream::Noted;
pub use io::retries::Retries;
pub use io::steady::{SteadyRead, SteadyWrite};
pub use io::stream_fault::{InputFault, ReadFault, WriteFault};
pub use io::stream_record::{Condition, Seen};
pub use item::{Changes, Item};
pub use method::Method;
pub use node_kind::NodeKind;
pub use reading::replies::reply_of;
pub use reading::requests::request_of;
pub use record::Record;
pub use refusal::{Limit, Refusal};
pub use reply::{PART_LIMIT, Reply};
pub use request::Request;
pub use running_hash::RunningHash;
pub use streams::{
    Arrival, FrameFault, HEADER_LENGTH, Header, read_frame, write_frame, write_reply,
};
pub use text::Text;
pub use texts::Texts;
pub use versions::{body_limit, is_version};
pub use writing::replies::{reply_body, reply_body_len};
pub use writing::requests::request_frame;

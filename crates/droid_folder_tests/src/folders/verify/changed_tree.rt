//! A tree that changed since its profile was written, with every kind of difference. (Python's `hashlib` computed the
//! digests; the reports are written by hand.)

use crate::folders::memory_tree::Row;
use droid_tree::EntryKind;

/// The tree as it is now.
pub(crate) const ROWS: [Row; 9] = [
    ("", b"changed", EntryKind::File, 3, Some(b"ONE")),
    ("", b"d", EntryKind::Folder, 0, Some(b"")),
    ("/d", b"moved", EntryKind::File, 6, Some(b"moving")),
    ("", b"grown", EntryKind::File, 5, Some(b"grown.")),
    ("", b"new", EntryKind::File, 3, Some(b"one")),
    ("", b"pipe", EntryKind::Other, 0, None),
    ("", b"same", EntryKind::File, 7, Some(b"message")),
    ("", b"sealed", EntryKind::File, 6, None),
    ("", b"touched", EntryKind::File, 6, Some(b"moment")),
];

/// Its profile before, with a format that the registry doesn't have.
pub(crate) const LIST: &str =
    "ID,PARENT_ID,URI,FILE_PATH,NAME,METHOD,STATUS,SIZE,TYPE,EXT,LAST_MODIFIED,EXTENSION_MISMATCH,MD5_HASH,\
    FORMAT_COUNT,PUID,MIME_TYPE,FORMAT_NAME,FORMAT_VERSION\n\
1,,u,/changed,changed,,Done,3,File,,1970-01-01T00:00:00,false,f97c5d29941bfb1b2fdab0874906ab82,0,,,,\n\
2,,u,/d,d,,Done,,Folder,,1970-01-01T00:00:00,false,,,,,,\n\
3,,u,/gone,gone,,Done,4,File,,1970-01-01T00:00:00,false,50c1f58be7f5e47e0f53d64c094783c2,0,,,,\n\
4,,u,/grown,grown,,Done,5,File,,1970-01-01T00:00:00,false,e72c4c72f739d5fffa9b7b09b3cdfb61,0,,,,\n\
5,,u,/moving,moving,,Done,6,File,,1970-01-01T00:00:00,false,7b3ef1b118f53a58660b8530d1aa4683,0,,,,\n\
6,,u,/pipe,pipe,,Done,4,File,,1970-01-01T00:00:00,false,20826a3cb51d6c7d9c219c7f4bf4e5c9,0,,,,\n\
7,,u,/same,same,,Done,7,File,,1970-01-01T00:00:00,false,78e731027d8fd50ed642340b7c9a63b3,1,dev/9,,,\n\
8,,u,/sealed,sealed,,Done,6,File,,1970-01-01T00:00:00,false,5ebe2294ecd0e0f08eab7690d2a6ee69,0,,,,\n\
9,,u,/touched,touched,,Done,6,File,,1970-01-01T00:01:00,false,673d4f049f0db3d188488f447477968a,0,,,,\n";

/// The report, formats included.
pub(crate) const REPORT: &str =
    "\"difference\",\"path\",\"size\",\"hash\",\"formats\",\"found_path\",\"found_size\",\"found_hash\",\"\
    found_formats\",\"reason\"\n\
\"changed\",\"/changed\",\"3\",\"f97c5d29941bfb1b2fdab0874906ab82\",\"\",\"/changed\",\"3\",\"\
bc21e6484530fc9d0313cb816b733396\",\"\",\"\"\n\
\"missing\",\"/gone\",\"4\",\"50c1f58be7f5e47e0f53d64c094783c2\",\"\",\"\",\"\",\"\",\"\",\"\"\n\
\"unreadable\",\"/grown\",\"\",\"\",\"\",\"\",\"\",\"\",\"\",\"it changed while it was read\"\n\
\"moved\",\"/moving\",\"6\",\"7b3ef1b118f53a58660b8530d1aa4683\",\"\",\"/d/moved\",\"6\",\"\
7b3ef1b118f53a58660b8530d1aa4683\",\"\",\"\"\n\
\"new\",\"/new\",\"\",\"\",\"\",\"/new\",\"3\",\"f97c5d29941bfb1b2fdab0874906ab82\",\"\",\"\"\n\
\"unreadable\",\"/pipe\",\"\",\"\",\"\",\"\",\"\",\"\",\"\",\"neither a folder nor a regular file, or it can't be \
looked at\"\n\
\"format\",\"/same\",\"\",\"\",\"dev/9\",\"\",\"\",\"\",\"dev/1\",\"\"\n\
\"unreadable\",\"/sealed\",\"\",\"\",\"\",\"\",\"\",\"\",\"\",\"it could not be opened or read\"\n";

/// The report if no file is read.
pub(crate) const QUICK_REPORT: &str =
    "\"difference\",\"path\",\"size\",\"hash\",\"formats\",\"found_path\",\"found_size\",\"found_hash\",\"\
    found_formats\",\"reason\"\n\
\"new\",\"/d/moved\",\"\",\"\",\"\",\"/d/moved\",\"6\",\"\",\"\",\"\"\n\
\"missing\",\"/gone\",\"4\",\"50c1f58be7f5e47e0f53d64c094783c2\",\"\",\"\",\"\",\"\",\"\",\"\"\n\
\"missing\",\"/moving\",\"6\",\"7b3ef1b118f53a58660b8530d1aa4683\",\"\",\"\",\"\",\"\",\"\",\"\"\n\
\"new\",\"/new\",\"\",\"\",\"\",\"/new\",\"3\",\"\",\"\",\"\"\n\
\"unreadable\",\"/pipe\",\"\",\"\",\"\",\"\",\"\",\"\",\"\",\"neither a folder nor a regular file, or it can't be \
looked at\"\n\
\"changed\",\"/touched\",\"6\",\"673d4f049f0db3d188488f447477968a\",\"\",\"/touched\",\"6\",\"\",\"\",\"\"\n";

//! Paths of folders and files: which texts are one.

ghost use Rattle.std.specs.Prelude.{◌≡◌, ◌==◌, not};
ghost use Rattle.std.specs.List.{list_all};
ghost use Rattle.droid_frame.specs.Paths as paths;

/// Returns whether this is the path of a folder or a file: `/` and names, `/` between them. A name is neither empty nor
/// `.` nor `..`, and has no zero byte.
pub fn is_file_path(path: &[u8]) -> bool
    ensures { result ≡ paths.is_file_path path.now }
{
    match path.split_first() {
        Some((first, names)) => *first == b'/' && is_plain(names),
        None => false,
    }
}

/// Returns whether the bytes behind a path's first `/` are names with `/` between them. No bytes are one empty name,
/// and that is none: so `/` alone is no path.
fn is_plain(path: &[u8]) -> bool
    ensures { result ≡ paths.is_plain path.now }
{
    path.split(|byte| *byte == b'/').all(|name| is_name(name))
}

/// Returns whether this is the name of a folder or a file: neither empty nor `.` nor `..`, and without a zero byte.
fn is_name(name: &[u8]) -> bool
    ensures { result ≡ paths.is_name name.now }
{
    !name.is_empty() && name != b".".as_slice() && name != b"..".as_slice() && has_no_zero(name)
}

/// Returns whether a name has no zero byte, which would end it in a call to the system. [`is_name`] asks it last.
fn has_no_zero(name: &[u8]) -> bool
    ensures { result ≡ list_all (λ b. not (b == 0)) name.now }
{
    name.iter().all(|byte| *byte != 0)
}

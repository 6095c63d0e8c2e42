//! The text of a path.
ghost use Rattle.std.specs.Prelude.{◌≡◌, MatchOption};
ghost use Rattle.jlr_device.specs.Paths as paths;

use arrayvec::ArrayString;

/// The most bytes of a path of the system.
pub const PATH_LIMIT: usize = 4095;

/// A path that starts at a folder, where its text keeps it below: it is not empty, does not start at the root, no part
/// of it is `..`, and the whole has at most 4,095 bytes. None is below the empty folder.
pub fn placed(folder: &str, path: &str) -> Option<ArrayString<PATH_LIMIT>>
    ensures { MatchOption result (paths.placed_below folder.now path.now ≡ None)
        (λ whole. paths.placed_below folder.now path.now ≡ Some whole.bytes) }
{
    if folder.is_empty() || !stays_below(path) {
        return None;
    }
    let mut whole = ArrayString::new();
    whole.try_push_str(folder).ok()?;
    whole.try_push_str("/").ok()?;
    whole.try_push_str(path).ok()?;
    Some(whole)
}

fn stays_below(path: &str) -> bool
    ensures { result ≡ paths.stays_below path.now }
{
    let bytes = path.as_bytes();
    if bytes.is_empty() || bytes[0] == b'/' {
        return false;
    }
    !has_parent(bytes)
}

fn has_parent(path: &[u8]) -> bool
    ensures { result ≡ paths.has_parent path.now }
{
    path.split(|byte| *byte == b'/')
        .any(|part| part == b"..".as_slice())
}

//! The path of a URL, which names a database.
ghost use Rattle.std.specs.Prelude.{◌≡◌, ◌==◌, IfOk, option_copied};
ghost use Rattle.std.specs.List.{list_any};
ghost use Rattle.mysql_url.specs.Paths.{database_of, has_more_segments, segments_of};

use conn_model::Text;
use std::alloc::{AllocError, Global};

/// What follows the slash that the path begins with.
fn segments_in(path: &str) -> Option<&str>
    ensures { option_copied result ≡ segments_of path.now }
{
    path.strip_prefix('/')
}

fn has_slash(segments: &str) -> bool
    ensures { result ≡ list_any (λ b. b == 47) segments.now }
{
    segments.bytes().any(|b| b == b'/')
}

/// Whether the path has more than one segment, which no name of a database has.
pub fn has_segments_left(path: &str) -> bool
    ensures { result ≡ has_more_segments path.now }
{
    match segments_in(path) {
        Some(segments) => has_slash(segments),
        None => false,
    }
}

/// The first segment of the path as it stands, unless it is empty.
pub fn database_in(alloc: Global, path: &str) -> Result<Option<Text>, AllocError>
    ensures { IfOk result (λ database. database ≡ database_of path.now) }
{
    let Some(segment) = segments_in(path) else {
        return Ok(None);
    };
    if segment.is_empty() {
        return Ok(None);
    }
    Ok(Some(Text::new(alloc, segment)?))
}

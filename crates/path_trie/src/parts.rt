//! Where one path lies from another, by their texts.

ghost use Rattle.std.specs.Prelude.{◌≡◌, true, false, not, ◌&&◌, nat_eq, MatchOption};
ghost use Rattle.std.specs.List.{starts_with};
ghost use Rattle.std.specs.Str.{bytes_eq};
ghost use Rattle.path_trie.specs.Below.{rest_below};
ghost use Rattle.gfs_types.specs.Paths.{root, parent, last_part, front_below, is_below, is_at_or_below, is_child};

/// What stands after a path's last slash.
pub fn last_part(path: &str) -> &str
    ensures { result.now ≡ last_part path.now }
{
    match path.rsplit_once('/') {
        Some((_, last)) => last,
        None => path,
    }
}

/// The directory right above a path.
pub fn parent(path: &str) -> &str
    ensures { result.now ≡ parent path.now }
{
    match path.rsplit_once('/') {
        Some((front, _)) if !front.is_empty() => front,
        _ => "/",
    }
}

// Whether a path begins as all those below the directory do.
fn begins_below(directory: &[u8], path: &[u8]) -> bool
    ensures { result ≡ starts_with nat_eq path.now (front_below directory.now) }
{
    if directory == b"/".as_slice() {
        return path.starts_with(b"/");
    }
    path.starts_with(directory) && path[directory.len()..].starts_with(b"/")
}

/// Whether a path lies below a directory, at any depth.
pub fn is_below(directory: &str, path: &str) -> bool
    ensures { result ≡ is_below directory.now path.now }
{
    begins_below(directory.as_bytes(), path.as_bytes()) && path != directory
}

/// Whether a path is this one or lies below it.
pub fn is_at_or_below(top: &str, path: &str) -> bool
    ensures { result ≡ is_at_or_below top.now path.now }
{
    path == top || is_below(top, path)
}

/// Whether a path lies right below a directory.
pub fn is_child(directory: &str, path: &str) -> bool
    ensures { result ≡ is_child directory.now path.now }
{
    is_below(directory, path) && parent(path) == directory
}

/// What a path has behind a name that it lies at or below, or None where it doesn't.
pub fn rest_below<'a>(top: &str, path: &'a str) -> Option<&'a str>
    ensures { MatchOption result (is_at_or_below top.now path.now ≡ false) (λ rest. (is_at_or_below top.now path.now ≡ true) × (rest.now ≡ rest_below top.now path.now)) }
{
    if !is_at_or_below(top, path) {
        return None;
    }
    if is_below_root(top, path) {
        return Some(path);
    }
    path.strip_prefix(top)
}

fn is_below_root(top: &str, path: &str) -> bool
    ensures { result ≡ (bytes_eq top.now root && not (bytes_eq path.now root)) }
{
    top == "/" && path != "/"
}

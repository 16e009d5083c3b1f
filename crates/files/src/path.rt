// What the path of a file tells.
ghost use Rattle.std.specs.Prelude.{◌≡◌, ◌≢◌, ℕ, ◌-◌, ◌<◌, ◌≤◌, length, slice_index, IsCharBoundary};

use crate::say;
use std::fs;
use std::fs::File;
use std::rt::Files;

// Where the name of a file begins in its path: behind the last slash. 47 is a slash.
fn name_at(path: &str) -> usize
    ensures within { result ≤ length path.now }
    ensures boundary { IsCharBoundary path.now result }
    ensures behind_slash { 0 < result → slice_index path.now (result - 1) ≡ 47 }
    ensures last { (i : ℕ) → result ≤ i → i < length path.now → slice_index path.now i ≢ 47 }
{
    match path.rfind('/') {
        Some(at) => at + 1,
        None => 0,
    }
}

// Opens the folder that a file stands in; none is open once the cause is said.
pub fn open_folder<R: Files + Eprint>(rt: &R, path: &str) -> Option<R::File> {
    let n = name_at(path);
    let folder = if n == 0 { "." } else { &path[..n] };
    say::or_complain(rt, folder, File::open(rt, folder))
}

// Whether a name is that of a link to a file.
pub fn is_link(rt: &impl Files, path: &str) -> bool {
    fs::symlink_metadata(rt, path).is_ok_and(|found| found.is_symlink())
}

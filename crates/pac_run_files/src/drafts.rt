//! Paths that are joined in a fixed room: the names of drafts, files that stand beside those whose places they are to take, and those of
//! what is in a folder.

ghost use Rattle.std.specs.Prelude.{◌≡◌, ◌++◌, IfSome, codes};

use arrayvec::ArrayString;

/// What the name of a draft has after its path. One that a run left behind, since it was killed, keeps its name: the next run takes another.
pub(crate) const DRAFT_ENDINGS: [&str; 9] = [
    ".unfinished-1",
    ".unfinished-2",
    ".unfinished-3",
    ".unfinished-4",
    ".unfinished-5",
    ".unfinished-6",
    ".unfinished-7",
    ".unfinished-8",
    ".unfinished-9",
];

/// Room for a path: Linux has paths of 4,096 bytes at most.
const MOST_BYTES: usize = 4_096;

/// The name of a draft; none where it is too long to be a path.
pub(crate) fn draft_name(path: &str, ending: &str) -> Option<ArrayString<MOST_BYTES>>
    ensures { IfSome result (λ name. name.bytes ≡ path.now ++ ending.now) }
{
    let mut name = ArrayString::new();
    if name.try_push_str(path).is_err() {
        return None;
    }
    if name.try_push_str(ending).is_err() {
        return None;
    }
    Some(name)
}

/// The path of a name in a folder; none where it is too long to be a path.
pub(crate) fn joined_path(folder: &str, name: &str) -> Option<ArrayString<MOST_BYTES>>
    ensures { IfSome result (λ path. path.bytes ≡ folder.now ++ codes "/" ++ name.now) }
{
    let mut path = ArrayString::new();
    if path.try_push_str(folder).is_err() {
        return None;
    }
    if path.try_push_str("/").is_err() {
        return None;
    }
    if path.try_push_str(name).is_err() {
        return None;
    }
    Some(path)
}

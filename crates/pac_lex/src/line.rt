//! The lines of a text.

ghost use Rattle.std.specs.Prelude.{◌≡◌, ◌<◌, ◌==◌, [], ◌∷◌, length, IfSome, IfNone, position};
ghost use Rattle.std.specs.Prelude.{option_map};
ghost use Rattle.std.specs.Str.Lines.{lines, strip_carriage_return};
ghost use Rattle.pac_lex.specs.Lines.{first_line};

use memchr::memchr;

/// The first line of a text without its ending, and the text after that ending; `None` where the text
/// is empty. A line ends at a line feed, with one carriage return before it dropped, or at the end of
/// the text. Sources, input scripts and debugger commands are parted into lines so.
pub fn first_line(bytes: &[u8]) -> Option<(&[u8], &[u8])>
    ensures none { IfNone result (bytes.now ≡ []) }
    ensures some { IfSome result (λ found. lines bytes.now ≡ found.0.now ∷ lines found.1.now) }
    ensures shorter { IfSome result (λ found. length found.1.now < length bytes.now) }
    // Which bytes, as a function of the text.
    ensures exact { option_map (λ found. (found.0.now, found.1.now)) result ≡ first_line bytes.now }
{
    if bytes.is_empty() {
        return None;
    }
    let Some(end) = line_feed(bytes) else {
        return Some((bytes, &[]));
    };
    let (line, rest) = bytes.split_at(end);
    Some((without_return(line), &rest[1..]))
}

/// The place of the first line feed.
fn line_feed(bytes: &[u8]) -> Option<usize>
    ensures place { result ≡ position (λ b. b == 10) bytes.now }
    ensures bound { IfSome result (λ end. end < length bytes.now) }
{
    memchr(b'\n', bytes)
}

/// A line without the carriage return at its end, if it has one.
fn without_return(line: &[u8]) -> &[u8]
    ensures { result.now ≡ strip_carriage_return line.now }
{
    match line {
        [line @ .., b'\r'] => line,
        _ => line,
    }
}

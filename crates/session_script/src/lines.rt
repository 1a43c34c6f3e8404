ghost use Rattle.std.specs.Prelude.{◌≡◌, ℕ, ◌+◌, ◌<◌, ◌≤◌, List, [], ◌∷◌, length, MatchOption};
ghost use Rattle.std.specs.Str.Lines.{lines, strip_carriage_return};
ghost use Rattle.session_script.specs.Script.{is_quiet};

use crate::words::cut;

/// The first line of a text that isn't empty, and the text of the lines after it.
pub(crate) fn first_line(text: &[u8]) -> (&[u8], &[u8])
    requires { 0 < length text.now }
    ensures lines { lines text.now ≡ result.0.now ∷ lines result.1.now }
    ensures shorter { length result.1.now < length text.now }
    ensures parts { length result.0.now + length result.1.now ≤ length text.now }
    ensures feed { 0 < length result.1.now → length result.0.now + length result.1.now < length text.now }
{
    let (line, rest) = cut(text, b'\n');
    match rest {
        Some(rest) => (without_return(line), rest),
        None => (line, b""),
    }
}

fn without_return(line: &[u8]) -> &[u8]
    ensures stripped { result.now ≡ strip_carriage_return line.now }
    ensures shorter { length result.now ≤ length line.now }
{
    match line {
        [line @ .., b'\r'] => line,
        _ => line,
    }
}

/// The line is empty or a comment.
pub(crate) fn is_quiet(line: &[u8]) -> bool
    ensures { result ≡ is_quiet line.now }
{
    match line {
        [] => true,
        [first, ..] => *first == b'#',
    }
}

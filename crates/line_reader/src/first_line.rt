ghost use Rattle.std.specs.Prelude.{◌≡◌, MatchOption};
ghost use Rattle.line_reader.specs.Deciding.{HasNoEnd, IsSearched, IsFirstEnd, IsFirstLine, is_closed};
ghost use Rattle.line_reader.specs.Deciding.{IsUndecided, reach};

use memchr::memchr;
use nop_types::MAX_LINE_BYTES;

/// Where the first line of some bytes lies: how long it is, and where the bytes after it and its end begin.
#[derive(Clone, Copy)]
pub struct FirstLine {
    pub len: usize,
    pub end: usize,
}

impl FirstLine {
    /// Whether the line has its end.
    pub fn is_closed(self) -> bool
        ensures { result ≡ is_closed self }
    {
        self.len < self.end
    }
}

/// Where the first line ends, unless it is too long or has no end yet. The first `searched` bytes have no line end.
fn line_end(searched: usize, bytes: &[u8]) -> Option<usize>
    requires { IsSearched searched bytes.now }
    ensures { MatchOption result (HasNoEnd (reach bytes.now) bytes.now) (IsFirstEnd bytes.now) }
{
    let reach = bytes.len().min(MAX_LINE_BYTES + 1);
    let at = memchr(b'\n', &bytes[searched..reach])?;
    Some(searched + at)
}

/// The first line, if it is decided. `before` of at most `most` lines stand before it, and the first `searched` bytes have no
/// line end.
pub(crate) fn first_line(
    most: u32,
    before: u32,
    ended: bool,
    searched: usize,
    bytes: &[u8],
) -> Option<FirstLine>
    requires { IsSearched searched bytes.now }
    ensures { MatchOption result (IsUndecided most before ended bytes.now)
        (IsFirstLine most before ended bytes.now) }
{
    if bytes.is_empty() {
        return None;
    }
    if before >= most {
        return Some(FirstLine { len: 1, end: 1 });
    }
    if let Some(len) = line_end(searched, bytes) {
        return Some(FirstLine { len, end: len + 1 });
    }
    if bytes.len() > MAX_LINE_BYTES {
        let len = MAX_LINE_BYTES + 1;
        return Some(FirstLine { len, end: len });
    }
    if ended {
        let len = bytes.len();
        return Some(FirstLine { len, end: len });
    }
    None
}

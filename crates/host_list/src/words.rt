//! The lines of a text, and the words of a line.

ghost use Rattle.std.specs.Prelude.{◌≡◌, ◌∷◌, [], ◌<◌, length, position, MatchOption, IfSome};
ghost use Rattle.std.specs.List.{before_first, slice_split};
ghost use Rattle.std.specs.Option.{option_copied};
ghost use Rattle.host_list.specs.LineWords.{AreWords};
ghost use Rattle.host_list.specs.Words.{is_blank, is_comment, is_line_end, lines_of};
ghost use Rattle.host_list.specs.Words.{other_lines, other_pieces, other_words, words_of};

fn line_end(text: &[u8]) -> Option<usize>
    ensures { result ≡ position is_line_end text.now }
{
    text.iter().position(|b| *b == b'\n')
}

/// The first line, and what follows its end.
pub(crate) fn cut_line(text: &[u8]) -> (&[u8], Option<&[u8]>)
    ensures lines { lines_of text.now ≡ result.0.now ∷ other_lines (option_copied result.1) }
    ensures shorter { IfSome result.1 (λ rest. length rest.now < length text.now) }
{
    match line_end(text) {
        Some(i) => (&text[..i], Some(&text[i + 1..])),
        None => (text, None),
    }
}

fn is_blank(b: u8) -> bool
    ensures { result ≡ is_blank b }
{
    b == b' ' || b == b'\t' || b == b'\r'
}

fn blank(line: &[u8]) -> Option<usize>
    ensures { result ≡ position is_blank line.now }
{
    line.iter().position(|b| is_blank(*b))
}

/// What stands before the first blank, and what follows it.
fn cut_piece(line: &[u8]) -> (&[u8], Option<&[u8]>)
    ensures pieces { slice_split is_blank line.now
        ≡ result.0.now ∷ other_pieces (option_copied result.1) }
    ensures shorter { IfSome result.1 (λ rest. length rest.now < length line.now) }
{
    match blank(line) {
        Some(i) => (&line[..i], Some(&line[i + 1..])),
        None => (line, None),
    }
}

fn comment(line: &[u8]) -> Option<usize>
    ensures { result ≡ position is_comment line.now }
{
    line.iter().position(|b| *b == b'#')
}

fn without_comment(line: &[u8]) -> &[u8]
    ensures { result.now ≡ before_first is_comment line.now }
{
    match comment(line) {
        Some(i) => &line[..i],
        None => line,
    }
}

/// The next word of what is left of a line, and what is left behind it.
fn next_word(rest: Option<&[u8]>) -> Option<(&[u8], Option<&[u8]>)>
    ensures { let words = other_words (option_copied rest.entry) in
        MatchOption result (words ≡ [])
        (λ p. words ≡ p.0.now ∷ other_words (option_copied p.1)) }
{
    let mut left = rest;
    while let Some(line) = left {
        let (piece, more) = cut_piece(line);
        left = more;
        if !piece.is_empty() {
            return Some((piece, left));
        }
    }
    None
}

/// What the words of a line are.
pub(crate) enum Words<'a> {
    None,
    Two(&'a [u8], &'a [u8]),
    Others,
}

/// The words of a line, where it has two or none.
pub(crate) fn words_of(line: &[u8]) -> Words<'_>
    ensures { AreWords result (words_of line.now) }
{
    let Some((first, rest)) = next_word(Some(without_comment(line))) else {
        return Words::None;
    };
    let Some((second, rest)) = next_word(rest) else {
        return Words::Others;
    };
    match next_word(rest) {
        Some(_) => Words::Others,
        None => Words::Two(first, second),
    }
}

//! One line and its words.
ghost use Rattle.std.specs.Prelude.{◌≡◌, ◌≤◌, length};
ghost use Rattle.script.specs.Lines.{place, Says};
ghost use Rattle.script.specs.Parts.{piece_of};

use crate::part::Part;
use crate::text::Text;
use crate::words::{Words, cut};

/// A line of a script, whose words are parts of the script.
#[derive(Clone, Copy)]
pub(crate) enum Line<'a> {
    /// A line with nothing in it, which is skipped.
    Empty,
    /// A comment, which is skipped: what stands behind its `#`.
    Comment(&'a [u8]),
    /// Any other line: its first word, and the words behind it.
    Words(Part<'a>, Words<'a>),
}

/// The place of the first `b` in `bytes`, or their count where there is none.
pub(crate) fn find(bytes: &[u8], b: u8) -> usize
    ensures value { result ≡ place b bytes.now }
    ensures within { result ≤ length bytes.now }
{
    bytes.iter().take_while(|c| **c != b).count()
}

/// What a line says.
pub(crate) fn line_of<'a>(text: Text<'a>) -> Line<'a>
    ensures { Says (piece_of text.entry.part) result }
{
    match text.part.bytes {
        [] => Line::Empty,
        [b'#', rest @ ..] => Line::Comment(rest),
        _ => {
            let (first, rest) = cut(text);
            Line::Words(first, rest)
        }
    }
}

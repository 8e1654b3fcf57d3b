//! A script as lines.
ghost use Rattle.std.specs.Prelude.{◌≡◌, ◌+◌, ◌≤◌, ◌∷◌, length, drop};
ghost use Rattle.grammar.specs.Text.{lines, words_in};
ghost use Rattle.script.specs.Parts.{piece_of, words_left};

use crate::part::Part;
use crate::text::Text;
use crate::words::Words;
use grammar::head::Head;

/// A script that is read line by line: the lines up to the place `at` are behind.
#[derive(Clone, Copy)]
pub struct Lines<'a> {
    pub(crate) script: &'a [u8],
    pub(crate) at: usize,
    /// How many lines are behind.
    pub(crate) count: u32,
    /// How many of them were skipped.
    pub(crate) skipped: u32,
    ghost short: { length script.now ≤ 32768 },
    ghost within: { at ≤ length script.now },
    ghost behind: { count ≤ at },
    ghost few: { skipped ≤ count },
    ghost counted: { count + length (lines (drop at script.now)) ≡ length (lines script.now) },
}

/// A line: its number, counted from 1, and its part of the script.
#[derive(Clone, Copy)]
pub(crate) struct NumberedLine<'a> {
    pub(crate) number: u32,
    pub(crate) text: Text<'a>,
}

/// A line that is not skipped, its first word, and the words behind it.
#[derive(Clone, Copy)]
pub(crate) struct WordLine<'a> {
    pub(crate) line: NumberedLine<'a>,
    pub(crate) first: Part<'a>,
    pub(crate) rest: Words<'a>,
    /// The words of its text are the first one and the rest.
    ghost worded: { words_in (piece_of line.text.part) ≡ piece_of first ∷ words_left rest },
}

/// What an admitted script begins with, and how many of its lines are skipped.
#[derive(Clone, Copy, Debug, PartialEq, Eq)]
pub struct Outline {
    pub head: Head,
    pub skipped: u32,
}

/// The calls of a script that are left.
#[derive(Clone, Copy)]
pub struct Calls<'a> {
    pub(crate) lines: Lines<'a>,
}

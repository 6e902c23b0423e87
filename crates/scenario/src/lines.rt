// The lines of a text, and the words of a line.
ghost use Rattle.std.specs.Prelude.{◌≡◌, ℕ, ◌+◌, Bool, List, length};
ghost use Rattle.std.specs.Iterator.{at_most};
ghost use Rattle.scenario.specs.Classes.{blank, front, behind, NextLine, NextWord};

use std::marker::Model;

// A space or a tab.
fn is_blank(b: u8) -> bool
    ensures { result ≡ blank b }
{
    matches!(b, b' ' | b'\t')
}

// The bytes at the front of a text that pass a test, and the rest.
fn cut<P: Fn(u8) -> bool>(text: &[u8], passes: P) -> (&[u8], &[u8])
    requires { P.IsAlwaysCallable passes }
    ensures parts { (p : ℕ → Bool) → ((b : ℕ) (r : Bool) → P.post passes b r → r ≡ p b) → (result.0.now ≡ front p text.now) × (result.1.now ≡ behind p text.now) }
    ensures whole { length result.0.now + length result.1.now ≡ length text.now }
{
    let end = text.iter().position(|b| !passes(*b));
    text.split_at(end.unwrap_or(text.len()))
}

// The lines of a text, in order. The end of a line belongs to no line.
// `Words` has the same shape and another `next`: one type for both would need a parameter for the cut in both public names.
#[derive(Drop)]
pub struct Lines<'a> {
    text: &'a [u8],
}

// The part of the text that is not yet read.
impl<'a> Model for Lines<'a> {
    ghost Value = { List ℕ };

    ghost view = { λ lines. lines.text.now };
}

impl<'a> Lines<'a> {
    pub fn new(text: &'a [u8]) -> Lines<'a>
        ensures { result ≡ text.now }
    {
        Lines { text }
    }

    // the text that is not yet read
    pub fn as_slice(&self) -> &'a [u8]
        ensures { result.now ≡ self.now }
    {
        self.text
    }
}

impl<'a> Iterator for Lines<'a> {
    type Item = &'a [u8];

    ghost next_gives = { NextLine };

    ghost remaining = { λ text. at_most (length text) };

    fn next(&mut self) -> Option<&'a [u8]> {
        if self.text.is_empty() {
            return None;
        }
        let (line, rest) = cut(self.text, |b| b != b'\n');
        *self = Lines::new(rest.get(1..).unwrap_or(&[]));
        Some(line)
    }
}

// The words of a line, in order.
#[derive(Drop)]
pub struct Words<'a> {
    line: &'a [u8],
}

// The part of the line that is not yet read.
impl<'a> Model for Words<'a> {
    ghost Value = { List ℕ };

    ghost view = { λ words. words.line.now };
}

impl<'a> Words<'a> {
    pub fn new(line: &'a [u8]) -> Words<'a>
        ensures { result ≡ line.now }
    {
        Words { line }
    }

    // the part of the line that is not yet read
    pub fn as_slice(&self) -> &'a [u8]
        ensures { result.now ≡ self.now }
    {
        self.line
    }
}

impl<'a> Iterator for Words<'a> {
    type Item = &'a [u8];

    ghost next_gives = { NextWord };

    ghost remaining = { λ line. at_most (length line) };

    fn next(&mut self) -> Option<&'a [u8]> {
        let (_, words) = cut(self.line, is_blank);
        let (word, rest) = cut(words, |b| !is_blank(b));
        *self = Words::new(rest);
        (!word.is_empty()).then_some(word)
    }
}

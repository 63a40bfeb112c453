//! The text of a script: its building, and its lines.

ghost use Rattle.std.specs.Prelude.{◌≡◌, ◌≢◌, ◌<◌, ◌≤◌, ◌+◌, ◌^◌, ◌∷◌, ◌++◌, [], All, length};
ghost use Rattle.std.specs.Prelude.{string_bytes, IfSome, IfNone, IfOk};
ghost use Rattle.std.specs.Str.Lines.{lines, strip_carriage_return};
ghost use Rattle.lift_replay.specs.Source.{IsScript, LacksDivider};

use crate::refused::{NoMemory, add, add_char};
use memchr::memchr;
use std::alloc::Global;

/// The text before the first line feed and the text after it, none where there is no line feed.
#[inline(always)]
fn split_at_end(text: &str) -> Option<(&str, &str)>
    ensures cut { IfSome result (λ parts. text.now ≡ parts.0.now ++ 10 ∷ parts.1.now) }
    ensures first { IfSome result (λ parts. All (λ other. other ≢ 10) parts.0.now) }
    ensures none { IfNone result (All (λ other. other ≢ 10) text.now) }
{
    let place = memchr(b'\n', text.as_bytes())?;
    Some((&text[..place], &text[place + 1..]))
}

/// The line without the carriage return that it may end with.
fn without_return(line: &str) -> &str
    ensures { result.now ≡ strip_carriage_return line.now }
{
    let len = line.len();
    if len > 0 && line.as_bytes()[len - 1] == b'\r' {
        return &line[..len - 1];
    }
    line
}

/// A line without its end (a line feed, with a carriage return before it or none), and what stands
/// after it; none where the text is at its end. The last line may lack its end.
#[inline(always)]
fn next_line(text: &str) -> Option<(&str, &str)>
    ensures first { IfSome result (λ found. lines text.now ≡ found.0.now ∷ lines found.1.now) }
    ensures shorter { IfSome result (λ found. length found.1.now < length text.now) }
    ensures over { IfNone result (text.now ≡ []) }
{
    if text.is_empty() {
        return None;
    }
    match split_at_end(text) {
        None => Some((text, "")),
        Some((line, later)) => Some((without_return(line), later)),
    }
}

/// The lines before the first that is `---`, each with its end, and the text after that one; none
/// where there is no such line.
pub fn split_script<'a>(alloc: Global, text: &'a str) -> Result<Option<(String, &'a str)>, NoMemory>
    ensures found { IfOk result (λ found.
        IfSome found (λ parts. IsScript text.now (string_bytes parts.0) (lines parts.1.now))) }
    ensures none { IfOk result (λ found. IfNone found (LacksDivider text.now)) }
{
    let mut building = String::new(alloc);
    let mut rest = text;
    for _ in 0..=text.len() {
        let Some((line, later)) = next_line(rest) else {
            return Ok(None);
        };
        if line == "---" {
            return Ok(Some((building, later)));
        }
        add(&mut building, line)?;
        add_char(&mut building, '\n')?;
        rest = later;
    }
    unreachable!()
}

/// The lines of a script that are still to be carried out.
#[derive(Clone, Copy)]
pub struct Lines<'a> {
    rest: &'a str,
    /// How many lines stood before them.
    count: usize,
    ghost bound: { count + length rest.now < 2 ^ 63 },
}

impl<'a> Lines<'a> {
    /// All lines of this text.
    pub fn new(text: &'a str) -> Self
        ensures text { result.rest.now ≡ text.now }
        ensures count { result.count ≡ 0 }
    {
        Lines {
            rest: text,
            count: 0,
        }
    }

    /// How many bytes they have, at least as many as lines.
    pub fn len(&self) -> usize
        ensures { result ≡ length self.now.rest.now }
    {
        self.rest.len()
    }

    /// The next line with its number, counted from 1; none where there are no more.
    pub fn next(&mut self) -> Option<(usize, &'a str)>
        ensures first { IfSome result (λ found.
            lines self.old.rest.now ≡ found.1.now ∷ lines self.new.rest.now) }
        ensures number { IfSome result (λ found. found.0 ≡ self.old.count + 1) }
        ensures counted { IfSome result (λ found. self.new.count ≡ found.0) }
        ensures shorter { IfSome result (λ found.
            length self.new.rest.now < length self.old.rest.now) }
        ensures over { IfNone result (self.old.rest.now ≡ []) }
        ensures kept { IfNone result (self.new ≡ self.old) }
    {
        let (line, later) = next_line(self.rest)?;
        self.rest = later;
        self.count += 1;
        Some((self.count, line))
    }
}

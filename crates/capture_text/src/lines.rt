//! Lines, cut off one by one.

ghost use Rattle.std.specs.Prelude.{◌≡◌, ◌+◌, [], ◌∷◌, IfNone, IfSome};
ghost use Rattle.std.specs.Str.Lines.{strip_carriage_return};
ghost use Rattle.capture_text.specs.Lines.{lines_of};

use crate::cutting::cut_near;
use std::marker::Model;

/// Lines that are taken off one by one, each with its number, the first with 1.
///
/// Contracts see those that are left, and the number of the last that was taken.
/// This project's own.
#[derive(Drop)]
pub struct Lines<'a> {
    /// What stands behind the last line feed that was passed, until the last line is taken.
    left: Option<&'a [u8]>,
    /// The number of the last line that was taken.
    number: u64,
    /// How many bytes stood before its line feed: the next often has as many.
    usual: usize,
}

impl<'a> Model for Lines<'a> {
    ghost use Rattle.std.specs.Prelude.{◌+◌, ◌^◌, ◌<◌};
    ghost use Rattle.capture_text.specs.Lines.{LinesLeft};
    ghost use Rattle.capture_text.specs.Steps.{lines_left};
    ghost use Rattle.capture_text.specs.private.Steps.{size_left};

    ghost Value = { LinesLeft };

    ghost view = { λ lines. record { lines = lines_left lines.left; number = lines.number } };

    ghost invariant = { λ lines. lines.number + size_left lines.left < 2 ^ 64 };
}

impl<'a> Lines<'a> {
    /// All lines of some bytes.
    ///
    /// Lines end at line feeds, which the last needs not; one carriage return at a line's end is
    /// dropped.
    pub fn of(bytes: &'a [u8]) -> Lines<'a>
        ensures { result ≡ record { lines = lines_of bytes.now; number = 0 } }
    {
        Lines {
            left: Some(bytes),
            number: 0,
            usual: 0,
        }
    }

    /// The next line and its number. `None` where no line is left, and then nothing changes.
    pub fn next_line(&mut self) -> Option<(u64, &'a [u8])>
        ensures none { IfNone result (self.old.lines ≡ []) }
        ensures spent { IfNone result (self.new ≡ self.old) }
        ensures line { IfSome result (λ next. self.old.lines ≡ next.1.now ∷ self.new.lines) }
        ensures number { IfSome result (λ next. next.0 ≡ self.old.number + 1) }
        ensures counts { IfSome result (λ next. next.0 ≡ self.new.number) }
    {
        let (line, rest) = cut_near(self.left?, b'\n', self.usual);
        self.left = rest;
        self.number += 1;
        self.usual = line.len();
        Some((self.number, without_carriage_return(line)))
    }
}

fn without_carriage_return(line: &[u8]) -> &[u8]
    ensures { result.now ≡ strip_carriage_return line.now }
{
    match line.last() {
        Some(b'\r') => &line[..line.len() - 1],
        _ => line,
    }
}

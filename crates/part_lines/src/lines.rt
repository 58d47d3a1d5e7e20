//! Where a text stands that is read line by line.

ghost use Rattle.std.specs.Prelude.{◌≡◌, ℕ, ◌+◌, ◌++◌, List, [], true, length, IfSome, IfNone, IfOk, IfErr};
ghost use Rattle.std.specs.List.{position, flat_map};
ghost use Rattle.tester_types.specs.Printing.{piece_text};
ghost use Rattle.text_bytes.specs.Texts.{AreLines};
ghost use Rattle.part_lines.specs.Lines.{is_feed, is_one_line, ended, lines_in};
ghost use Rattle.part_lines.specs.Reading.{IsNext, HasRead};
ghost use Rattle.part_lines.specs.declared.fault.LineFault.TheVariants as fault;

use crate::fault::LineFault;
use crate::printed::is_printed;
use std::marker::Model;
use tester_types::Piece;

/// Where a text stands that is read line by line: the lines that were read, and what is left.
#[derive(Drop)]
pub struct Lines<'a> {
    text: &'a [u8],
    at: usize,
    number: u64,
}

impl<'a> Model for Lines<'a> {
    ghost use Rattle.std.specs.Prelude.{◌≡◌, ◌+◌, ◌≤◌, length, take, drop};
    ghost use Rattle.text_bytes.specs.Texts.{AreLines};
    ghost use Rattle.part_lines.specs.Lines.{lines_in};
    ghost use Rattle.part_lines.specs.Reading.{Reading};

    ghost Value = { Reading };

    ghost view = { λ l. record { front = take l.at l.text.now; rest = drop l.at l.text.now } };

    ghost invariant = { λ l. (l.at ≤ length l.text.now) × AreLines (take l.at l.text.now)
        × (l.number ≡ lines_in (take l.at l.text.now) + 1) };
}

impl<'a> Lines<'a> {
    /// The text, of which nothing was read.
    pub fn new(text: &'a [u8]) -> Lines<'a>
        ensures front { result.front ≡ [] }
        ensures rest { result.rest ≡ text.now }
    {
        Lines {
            text,
            at: 0,
            number: 1,
        }
    }

    /// The number of the next line, from 1.
    pub fn number(&self) -> u64
        ensures number { result ≡ lines_in self.now.front + 1 }
        ensures lines { AreLines self.now.front }
    {
        self.number
    }

    /// How many bytes were read.
    pub fn place(&self) -> usize
        ensures { result ≡ length self.now.front }
    {
        self.at
    }

    /// What is left.
    pub fn left(&self) -> &'a [u8]
        ensures { result.now ≡ self.now.rest }
    {
        &self.text[self.at..]
    }

    /// The next line without its line feed, if one ends in what is left.
    pub fn peek(&self) -> Option<&'a [u8]>
        ensures found { IfSome result (λ line. IsNext self.now.rest line.now) }
        ensures none { IfNone result (is_one_line self.now.rest ≡ true) }
    {
        let left = self.left();
        let len = line_len(left)?;
        Some(&left[..len])
    }

    #[tactic(auto, using(crate::proofs::HasReadLemmas::none_is_next))]
    /// Reads the line that these pieces print, if it is the next one.
    pub fn expect(&mut self, pieces: &[Piece]) -> Result<(), LineFault>
        ensures found { IfOk result (λ _. HasRead self.old self.new (ended (flat_map piece_text pieces.now))) }
        ensures fault { IfErr result (λ e. (e ≡ fault.Line (lines_in self.old.front + 1))
            × (IsNext self.old.rest (flat_map piece_text pieces.now) → ⊥)) }
    {
        let Some(line) = self.peek() else {
            return Err(LineFault::Line(self.number()));
        };
        if !is_printed(line, pieces) {
            return Err(LineFault::Line(self.number()));
        }
        self.pass(line);
        Ok(())
    }

    /// Reads the next line, which is this one.
    pub fn pass(&mut self, line: &[u8])
        requires { IsNext self.old.rest line.now }
        ensures front { self.new.front ≡ self.old.front ++ ended line.now }
        ensures rest { self.old.rest ≡ ended line.now ++ self.new.rest }
    {
        self.at += line.len() + 1;
        self.number += 1;
    }
}

/// The length of the text's first line, if one ends.
fn line_len(text: &[u8]) -> Option<usize>
    ensures { result ≡ position is_feed text.now }
{
    text.iter().position(|b| *b == b'\n')
}

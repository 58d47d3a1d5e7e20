//! A sheet on which a text is written, up to as many bytes as a text may have.

ghost use Rattle.std.specs.Prelude.{◌≡◌, [], ◌∷◌, IfOk, Some, codes, option_map};
ghost use Rattle.std.specs.List.{flat_map};
ghost use Rattle.tester_types.specs.Printing.{quoted};
ghost use Rattle.flat_parts.specs.FlatText.{opening};
ghost use Rattle.flat_stil.specs.Working.{part_text, wrote, prints};

use crate::text::FlatText;
use itoa::Buffer;
use std::alloc::{AllocError, Global};
use std::marker::Model;

/// A part of a line.
#[derive(Clone, Copy)]
pub(crate) enum Part<'a> {
    /// Bytes as they are.
    Text(&'a [u8]),
    /// One byte.
    Character(u8),
    /// A number in decimal digits.
    Number(u64),
    /// A name in double quotes.
    Name(&'a [u8]),
}

/// A text that is written. Its room is reserved at its start, so writing takes no memory; once a piece had no room,
/// nothing more is kept.
#[derive(Drop)]
pub(crate) struct Sheet {
    text: Vec<u8>,
    room: usize,
    is_over: bool,
}

impl Model for Sheet {
    ghost use Rattle.std.specs.Prelude.{◌≤◌, ◌+◌, Option, Some, None, if◌then◌else◌, vec_len, vec_capacity};
    ghost use Rattle.flat_stil.specs.Working.{Written};

    ghost Value = { Option Written };

    ghost view = { λ s. if s.is_over then None else Some (record { text = s.text.items; room = s.room }) };

    ghost invariant = { λ s. vec_len s.text + s.room ≤ vec_capacity s.text };
}

impl Sheet {
    /// An empty sheet with this room.
    pub fn new(alloc: Global, room: usize) -> Result<Sheet, AllocError>
        ensures { IfOk result (λ sheet. sheet ≡ Some (record { text = []; room = room })) }
    {
        let text = Vec::with_capacity(alloc, room)?;
        Ok(Sheet {
            text,
            room,
            is_over: false,
        })
    }

    /// Writes a piece.
    #[tactic(auto, unfolding(crate::specs::Working::wrote))]
    fn put(&mut self, piece: &[u8])
        ensures { self.new ≡ wrote self.old piece.now }
    {
        if self.is_over {
            return;
        }
        if piece.len() > self.room {
            self.is_over = true;
            return;
        }
        self.text.extend_from_slice(piece).unwrap();
        self.room -= piece.len();
    }

    /// Writes a part.
    fn put_part(&mut self, part: Part<'_>)
        ensures { self.new ≡ wrote self.old (part_text part.entry) }
    {
        match part {
            Part::Text(text) => self.put(text),
            Part::Character(character) => self.put(&[character]),
            Part::Number(number) => self.put(Buffer::new().format(number).as_bytes()),
            Part::Name(name) => self.put_name(name),
        }
    }

    /// Writes a name in double quotes.
    fn put_name(&mut self, name: &[u8])
        ensures { self.new ≡ wrote self.old (quoted name.now) }
    {
        self.put(b"\"");
        self.put(name);
        self.put(b"\"");
    }

    /// Writes parts, one after another.
    pub fn put_parts(&mut self, parts: &[Part<'_>])
        ensures { self.new ≡ wrote self.old (flat_map part_text parts.now) }
    {
        for part in parts {
            self.put_part(*part);
        }
    }

    /// Writes a line.
    pub fn put_line(&mut self, parts: &[Part<'_>])
        ensures { self.new ≡ prints self.old (flat_map part_text parts.now ∷ []) }
    {
        self.put_parts(parts);
        self.put(b"\n");
    }

    /// Writes the line that opens a block of this number.
    pub fn begin(&mut self, words: &[u8], number: u64)
        ensures { self.new ≡ prints self.old (opening words.now number ∷ []) }
    {
        self.put_line(&[Part::Text(words), Part::Number(number), Part::Text(b"\" {")]);
    }

    /// Writes the line that closes a block.
    pub fn close(&mut self)
        ensures { self.new ≡ prints self.old (codes "}" ∷ []) }
    {
        self.put_line(&[Part::Text(b"}")]);
    }

    /// The text, unless a piece of it had no room.
    pub fn into_text(self) -> Option<FlatText>
        ensures { result ≡ option_map (λ w. w.text) self }
    {
        if self.is_over {
            None
        } else {
            Some(FlatText::new(self.text))
        }
    }
}

//! Writing to a sink: whole texts, and lines by their pieces, without memory.

ghost use Rattle.std.specs.Prelude.{◌≡◌, ℕ, List};
ghost use Rattle.std.specs.List.{flat_map, list_all};
ghost use Rattle.tester_types.specs.Outside.{Prints};
ghost use Rattle.tester_types.specs.Printing.{piece_text, is_bare, quoted, printed_name};

use crate::outside::{Sink, SinkFault};
use itoa::Buffer;

/// Puts the whole text, in as many puts as it takes. A put that fails or that takes nothing ends it.
pub fn put_all<K: Sink>(sink: &mut K, piece: &[u8]) -> Result<(), SinkFault>
    ensures { Prints (K.told sink.old) (K.faults sink.old) piece.now result (K.told sink.new) (K.faults sink.new) }
{
    let mut at = 0;
    while at < piece.len() {
        match sink.put(&piece[at..]) {
            Ok(0) => return Err(SinkFault),
            Ok(taken) => at += taken,
            Err(_) => return Err(SinkFault),
        }
    }
    Ok(())
}

/// What has a printed text.
pub trait Printed {
    ghost text: { Self → List ℕ };

    /// Puts its text.
    fn put_to<K: Sink>(&self, sink: &mut K) -> Result<(), SinkFault>
        ensures { Prints (K.told sink.old) (K.faults sink.old) (text self.now) result
            (K.told sink.new) (K.faults sink.new) };
}

/// Puts the texts of the items, one after another.
pub fn put_each<K: Sink, P: Printed>(sink: &mut K, items: &[P]) -> Result<(), SinkFault>
    ensures { Prints (K.told sink.old) (K.faults sink.old) (flat_map P.text items.now) result
        (K.told sink.new) (K.faults sink.new) }
{
    for item in items {
        item.put_to(sink)?;
    }
    Ok(())
}

impl Printed for &[u8] {
    ghost text = { λ bytes. bytes.now };

    fn put_to<K: Sink>(&self, sink: &mut K) -> Result<(), SinkFault> {
        put_all(sink, self)
    }
}

/// A piece of a line.
#[derive(Clone, Copy)]
pub enum Piece<'a> {
    /// Bytes as they are.
    Text(&'a [u8]),
    /// A number in decimal digits.
    Number(u128),
    /// A name: bare where it isn't empty and all its bytes are 0x21 to 0x7E, else in double quotes.
    Name(&'a [u8]),
    /// A name that may be missing, which is `-` then.
    Title(&'a [u8]),
}

impl Printed for Piece<'_> {
    ghost text = { piece_text };

    fn put_to<K: Sink>(&self, sink: &mut K) -> Result<(), SinkFault> {
        match *self {
            Piece::Text(text) => put_all(sink, text),
            Piece::Number(number) => put_all(sink, Buffer::new().format(number).as_bytes()),
            Piece::Name(name) => put_name(sink, name),
            Piece::Title([]) => put_all(sink, b"-"),
            Piece::Title(name) => put_name(sink, name),
        }
    }
}

/// Whether a name is printed without quotes.
fn is_bare_name(name: &[u8]) -> bool
    ensures { result ≡ list_all is_bare name.now }
{
    name.iter().all(|byte| *byte >= 0x21 && *byte <= 0x7E)
}

fn put_name<K: Sink>(sink: &mut K, name: &[u8]) -> Result<(), SinkFault>
    ensures { Prints (K.told sink.old) (K.faults sink.old) (printed_name name.now) result
        (K.told sink.new) (K.faults sink.new) }
{
    if !name.is_empty() && is_bare_name(name) {
        put_all(sink, name)
    } else {
        put_quoted(sink, name)
    }
}

fn put_quoted<K: Sink>(sink: &mut K, name: &[u8]) -> Result<(), SinkFault>
    ensures { Prints (K.told sink.old) (K.faults sink.old) (quoted name.now) result
        (K.told sink.new) (K.faults sink.new) }
{
    let quote: &[u8] = b"\"";
    put_each(sink, &[quote, name, quote])
}

//! What is spelled as bytes: it is put to a sink, and its bytes are counted, in one order.

ghost use Rattle.std.specs.Prelude.{◌≡◌, ℕ, ◌∷◌, [], ◌++◌, ◌^◌, ◌-◌, List, length, min};
ghost use Rattle.std.specs.List.{flat_map};
ghost use Rattle.std.specs.Int.{w8, w16, w32, w64};
ghost use Rattle.tester_types.specs.Outside.{Prints};
ghost use Rattle.packed_code.specs.Packed.{number};

use tester_types::{Sink, SinkFault, put_all};

/// What has one spelling.
pub(crate) trait Spelled {
    ghost spelling: { Self → List ℕ };

    /// Puts its bytes.
    fn put<K: Sink>(&self, sink: &mut K) -> Result<(), SinkFault>
        ensures { Prints (K.told sink.old) (K.faults sink.old) (spelling self.now) result
            (K.told sink.new) (K.faults sink.new) };

    /// How many bytes it has, as far as 64 bits count.
    fn size(&self) -> u64
        ensures { result ≡ min (length (spelling self.now)) (2 ^ 64 - 1) };
}

/// One part behind another.
#[derive(Drop)]
pub(crate) struct Then<A, B> {
    pub(crate) first: A,
    pub(crate) second: B,
}

/// One part behind another.
pub(crate) fn followed<A, B>(first: A, second: B) -> Then<A, B>
    ensures { result ≡ record { first = first; second = second } }
{
    Then { first, second }
}

impl<A: Spelled, B: Spelled> Spelled for Then<A, B> {
    ghost spelling = { λ s. A.spelling s.first ++ B.spelling s.second };

    fn put<K: Sink>(&self, sink: &mut K) -> Result<(), SinkFault> {
        self.first.put(sink)?;
        self.second.put(sink)
    }

    fn size(&self) -> u64 {
        self.first.size().saturating_add(self.second.size())
    }
}

impl<T: Spelled> Spelled for &T {
    ghost spelling = { λ part. T.spelling part.now };

    fn put<K: Sink>(&self, sink: &mut K) -> Result<(), SinkFault> {
        (**self).put(sink)
    }

    fn size(&self) -> u64 {
        (**self).size()
    }
}

/// Parts one behind another.
#[derive(Drop)]
pub(crate) struct Each<'a, T> {
    pub(crate) items: &'a [T],
}

impl<T: Spelled> Spelled for Each<'_, T> {
    ghost spelling = { λ s. flat_map T.spelling s.items.now };

    fn put<K: Sink>(&self, sink: &mut K) -> Result<(), SinkFault> {
        put_each(sink, self.items)
    }

    fn size(&self) -> u64 {
        size_of_each(self.items)
    }
}

fn put_each<K: Sink, T: Spelled>(sink: &mut K, items: &[T]) -> Result<(), SinkFault>
    ensures { Prints (K.told sink.old) (K.faults sink.old) (flat_map T.spelling items.now) result
        (K.told sink.new) (K.faults sink.new) }
{
    for item in items {
        item.put(sink)?;
    }
    Ok(())
}

fn size_of_each<T: Spelled>(items: &[T]) -> u64
    ensures { result ≡ min (length (flat_map T.spelling items.now)) (2 ^ 64 - 1) }
{
    let mut size: u64 = 0;
    for item in items {
        size = size.saturating_add(item.size());
    }
    size
}

/// Bytes as they are.
#[derive(Drop)]
pub(crate) struct Bytes<'a> {
    pub(crate) bytes: &'a [u8],
}

impl Spelled for Bytes<'_> {
    ghost spelling = { λ s. s.bytes.now };

    fn put<K: Sink>(&self, sink: &mut K) -> Result<(), SinkFault> {
        put_all(sink, self.bytes)
    }

    fn size(&self) -> u64 {
        self.bytes.len() as u64
    }
}

/// A byte.
#[derive(Drop)]
pub(crate) struct Byte {
    pub(crate) byte: u8,
}

impl Spelled for Byte {
    ghost spelling = { λ s. s.byte ∷ [] };

    fn put<K: Sink>(&self, sink: &mut K) -> Result<(), SinkFault> {
        put_all(sink, &[self.byte])
    }

    fn size(&self) -> u64 {
        1
    }
}

/// A number in 16 bits.
#[derive(Drop)]
pub(crate) struct Number16 {
    pub(crate) number: u16,
}

#[tactic(auto, unfolding(packed_code::specs::Packed::number))]
impl Spelled for Number16 {
    ghost spelling = { λ s. number w16 s.number };

    fn put<K: Sink>(&self, sink: &mut K) -> Result<(), SinkFault> {
        put_all(sink, &self.number.to_le_bytes())
    }

    fn size(&self) -> u64 {
        2
    }
}

/// A number in 32 bits.
#[derive(Drop)]
pub(crate) struct Number32 {
    pub(crate) number: u32,
}

#[tactic(auto, unfolding(packed_code::specs::Packed::number))]
impl Spelled for Number32 {
    ghost spelling = { λ s. number w32 s.number };

    fn put<K: Sink>(&self, sink: &mut K) -> Result<(), SinkFault> {
        put_all(sink, &self.number.to_le_bytes())
    }

    fn size(&self) -> u64 {
        4
    }
}

/// A number in 64 bits.
#[derive(Drop)]
pub(crate) struct Number64 {
    pub(crate) number: u64,
}

#[tactic(auto, unfolding(packed_code::specs::Packed::number))]
impl Spelled for Number64 {
    ghost spelling = { λ s. number w64 s.number };

    fn put<K: Sink>(&self, sink: &mut K) -> Result<(), SinkFault> {
        put_all(sink, &self.number.to_le_bytes())
    }

    fn size(&self) -> u64 {
        8
    }
}

/// A count in 8 bits.
#[derive(Drop)]
pub(crate) struct Count8 {
    pub(crate) count: usize,
}

#[tactic(auto, unfolding(packed_code::specs::Packed::number))]
impl Spelled for Count8 {
    ghost spelling = { λ s. number w8 s.count };

    fn put<K: Sink>(&self, sink: &mut K) -> Result<(), SinkFault> {
        put_all(sink, &self.count.to_le_bytes()[..1])
    }

    fn size(&self) -> u64 {
        1
    }
}

/// A count in 16 bits.
#[derive(Drop)]
pub(crate) struct Count16 {
    pub(crate) count: usize,
}

#[tactic(auto, unfolding(packed_code::specs::Packed::number))]
impl Spelled for Count16 {
    ghost spelling = { λ s. number w16 s.count };

    fn put<K: Sink>(&self, sink: &mut K) -> Result<(), SinkFault> {
        put_all(sink, &self.count.to_le_bytes()[..2])
    }

    fn size(&self) -> u64 {
        2
    }
}

/// A count in 32 bits.
#[derive(Drop)]
pub(crate) struct Count32 {
    pub(crate) count: usize,
}

#[tactic(auto, unfolding(packed_code::specs::Packed::number))]
impl Spelled for Count32 {
    ghost spelling = { λ s. number w32 s.count };

    fn put<K: Sink>(&self, sink: &mut K) -> Result<(), SinkFault> {
        put_all(sink, &self.count.to_le_bytes()[..4])
    }

    fn size(&self) -> u64 {
        4
    }
}

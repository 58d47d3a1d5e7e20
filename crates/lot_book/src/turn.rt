//! The turn of a book: a share takes it, files, and gives it back.

ghost use Rattle.std.specs.Prelude.{◌≡◌};
ghost use Rattle.lot_book.specs.Rule.{as_share};
ghost use Rattle.lot_book.specs.Steps.{IsShare, HoldsBook, HasRoom, HasWritten, HasChanged, given, in_hand, after_filing};

use crate::book::Book;
use crate::shares::BookSeat;
use crate::steps::{Give, Take};
use std::sync::Wait;
use std::thread::yield_now;
use tester_types::Record;

/// The word that is 1 while a share holds the book.
const TURN: usize = 0;

/// The slot of the book.
const BOOK: usize = 0;

/// Takes the turn, and with it the book. It waits until it has it.
fn take<R: Wait>(rt: &R, book: &Book, seat: &mut BookSeat)
    requires book { seat.old.table_id ≡ book.now.table }
    requires share { IsShare seat.old.me (as_share seat.old.me.0) }
    ensures book { seat.new.table_id ≡ seat.old.table_id }
    ensures holds { HoldsBook seat.new.me (as_share seat.old.me.0) }
{
    for _ in rt.forever() {
        if book.table.shared.compare_exchange::<Take>(seat, TURN, 0, 1) == 0 {
            return;
        }
        yield_now();
    }
    unreachable!()
}

/// Files a record in the book that the seat holds.
fn write(book: &Book, seat: &mut BookSeat, entry: Record)
    requires book { seat.old.table_id ≡ book.now.table }
    requires holds { HoldsBook seat.old.me (as_share seat.old.me.0) }
    requires site { entry.site ≡ (as_share seat.old.me.0).site }
    requires room { HasRoom (as_share seat.old.me.0) }
    ensures book { seat.new.table_id ≡ seat.old.table_id }
    ensures written { HasWritten seat.new.me (as_share seat.old.me.0) entry }
{
    let held = seat.slot_mut(&book.table.shared, BOOK);
    held.file_into(entry);
}

/// Gives the turn back, and with it the book, once a record was written.
fn give(book: &Book, seat: &mut BookSeat)
    requires book { seat.old.table_id ≡ book.now.table }
    requires changed { HasChanged seat.old.me (as_share seat.old.me.0) }
    ensures book { seat.new.table_id ≡ seat.old.table_id }
    ensures given { seat.new.me ≡ given (as_share seat.old.me.0) (in_hand seat.old.me.1) }
{
    book.table.shared.store::<Give>(seat, TURN, 0);
}

/// Files a record: takes the turn, writes, and gives the turn back.
pub(crate) fn file<R: Wait>(rt: &R, book: &Book, seat: &mut BookSeat, entry: Record)
    requires book { seat.old.table_id ≡ book.now.table }
    requires share { IsShare seat.old.me (as_share seat.old.me.0) }
    requires site { entry.site ≡ (as_share seat.old.me.0).site }
    requires room { HasRoom (as_share seat.old.me.0) }
    ensures book { seat.new.table_id ≡ seat.old.table_id }
    ensures filed { seat.new.me ≡ after_filing (as_share seat.old.me.0) entry }
{
    take(rt, book, seat);
    write(book, seat, entry);
    give(book, seat);
}

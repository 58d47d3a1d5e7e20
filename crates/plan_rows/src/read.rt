//! The rows of a text.

ghost use Rattle.std.specs.Prelude.{◌≡◌, ◌≤◌, ◌+◌, ◌⊎◌, List, Ok, length, IfOk, IfErr, MatchResult};
ghost use Rattle.text_bytes.specs.Limits.{most_bytes};
ghost use Rattle.plan_rows.specs.Inside.{IsWhole};
ghost use Rattle.plan_rows.specs.Plan.{Answers, IsPlan, IsFault};
ghost use Rattle.plan_rows.specs.Rows.{AreKept};
ghost use Rattle.plan_rows.specs.declared.row.Row.{Row};
ghost use Rattle.plan_rows.specs.declared.fault.PlanFault.{PlanFault};
ghost use Rattle.plan_rows.specs.declared.fault.PlanFault.TheVariants.{NoMemory};

use crate::book::Book;
use crate::fault::PlanFault;
use crate::row::{PlanRows, Row};
use csv::ReaderBuilder;
use std::alloc::Global;
use tester_types::Items;

/// The rows of a plan's text, or the first fault of its records.
///
/// A plan is comma-separated values without a heading, as the crate `csv` reads them: six fields in every record, and
/// the lot's own record first. Rows are counted from 1, record by record. A text without records is `Shape(1)`.
pub fn read_rows(alloc: Global, bytes: &[u8]) -> Result<PlanRows, PlanFault>
    requires { length bytes.now ≤ most_bytes }
    ensures kept { IfOk result (λ rows. AreKept rows) }
    ensures few { IfOk result (λ rows. length rows ≤ length bytes.now + 1) }
    ensures found { IfOk result (λ rows. IsPlan bytes.now rows) }
    ensures only { (rows : List Row) → IsPlan bytes.now rows
        → MatchResult result (λ r. r ≡ rows) (λ e. e ≡ NoMemory) }
    ensures fault { IfErr result (λ e. (e ≡ NoMemory) ⊎ IsFault bytes.now e) }
    ensures refused { (f : PlanFault) → IsFault bytes.now f
        → MatchResult result (λ _. ⊥) (λ e. (e ≡ NoMemory) ⊎ (e ≡ f)) }
{
    Ok(Items::from_vec(plan(alloc, bytes)?))
}

/// The rows of a text that has a record.
fn plan(alloc: Global, bytes: &[u8]) -> Result<Vec<Row>, PlanFault>
    requires { length bytes.now ≤ most_bytes }
    ensures { Answers
        (λ rows. IsPlan bytes.now rows.items × (length rows.items ≤ length bytes.now + 1))
        (IsFault bytes.now) result }
{
    let book = read_records(alloc, bytes)?;
    if book.is_empty() {
        return Err(PlanFault::Shape(1));
    }
    Ok(book.into_rows())
}

/// The rows of all records of a text.
fn read_records(alloc: Global, bytes: &[u8]) -> Result<Book, PlanFault>
    requires { length bytes.now ≤ most_bytes }
    ensures { Answers
        (λ book. IsWhole bytes.now book.rows.items × (length book.rows.items ≤ length bytes.now + 1))
        (IsFault bytes.now) result }
{
    let reader = ReaderBuilder::new()
        .has_headers(false)
        .flexible(true)
        .from_reader(alloc, bytes);
    let mut book = Book::new(alloc)?;
    for row in reader.into_byte_records() {
        let Ok(fields) = row else {
            return Err(PlanFault::NoMemory);
        };
        book.read(alloc, &fields)?;
    }
    Ok(book)
}

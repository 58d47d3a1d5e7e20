//! The cycles that a cursor still gives, as a feed.

ghost use Rattle.pattern_mem.specs.Cursor.{cycles_to_come};
ghost use Rattle.site_run.specs.Feed.{CanGive, IsSameFeed};
ghost use Rattle.site_run.specs.FeedLaws.{same_itself, same_on};

use cycle_run::Feed;
use packed_code::Code;
use pattern_mem::{Cursor, PatternMem, PoolPass};
use std::sync::Wait;
use tester_types::{Cycle, NoMemory};

/// A cursor over a code in memory, with what it asks the pool by, all of it lent. To give a cycle may wait for other threads.
#[derive(Drop)]
pub(crate) struct CursorFeed<'a, R> {
    pub rt: &'a R,
    pub mem: &'a PatternMem,
    pub pass: &'a mut PoolPass,
    pub cursor: &'a mut Cursor,
}

impl<'a, R: Wait> Feed for CursorFeed<'a, R> {
    ghost can = { CanGive };

    ghost coming = { λ code feed. cycles_to_come code feed.cursor.now };

    ghost keeps = { IsSameFeed };

    fn give(&mut self, _code: &Code) -> Result<Cycle, NoMemory> {
        match self.cursor.next(self.rt, self.mem, self.pass) {
            Ok(Some(cycle)) => Ok(cycle),
            Ok(None) => unreachable!(),
            Err(fault) => Err(fault),
        }
    }

    ghost keeps_itself = { same_itself };

    ghost keeps_on = { same_on };
}

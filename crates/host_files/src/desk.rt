//! Names of files that say that a site is to stop, as a desk.

ghost use Rattle.std.specs.Prelude.{◌≡◌, ℕ, ◌<◌, false, slice_index_or, if◌then◌else◌};
ghost use Rattle.text_bytes.specs.Limits.{most_sites};

use std::fs;
use std::rt::Files;
use std::thread::sleep;
use std::time::{Clock, Duration};
use tester_types::{Ask, Desk};
use text_bytes::MOST_SITES;

/// The names of the files, each at the place of its site's number.
const NAMES: [&str; MOST_SITES] = [
    "stop.0", "stop.1", "stop.2", "stop.3", "stop.4", "stop.5", "stop.6", "stop.7", "stop.8",
    "stop.9", "stop.10", "stop.11", "stop.12", "stop.13", "stop.14", "stop.15",
];

/// The sites one after another, and again from the first.
#[derive(Drop)]
struct Round {
    next: usize,
}

impl Round {
    /// The site whose turn it is. The next one's is then.
    fn turn(&mut self) -> usize
        ensures { result < most_sites }
    {
        let site = self.next % MOST_SITES;
        self.next = site + 1;
        site
    }
}

/// How many milliseconds the desk waits before it looks, so that it takes next to none of the processors' time.
const PAUSE: u64 = 1;

/// A desk that says `Stop(N)` the first time it finds `stop.N` in the folder that the program runs in, and once for each N
/// from 0 to 15. Whatever has that name counts, a file, a folder, a pipe or a link that leads somewhere, and it isn't opened.
/// The desk looks for one name each time it is asked, in turn, a millisecond later.
#[derive(Drop)]
pub struct FileDesk<'a, R: Files> {
    rt: &'a R,
    /// For each site whether its file was found.
    found: [bool; MOST_SITES],
    round: Round,
    asked: bool,
}

impl<'a, R: Files> FileDesk<'a, R> {
    /// A desk that was not asked yet.
    pub fn new(rt: &'a R) -> Self
        ensures not_asked { result.asked ≡ false }
        ensures none { (site : ℕ) → slice_index_or result.found site false ≡ false }
    {
        FileDesk {
            rt,
            found: [false; MOST_SITES],
            round: Round { next: 0 },
            asked: false,
        }
    }
}

impl<R: Files + Clock + Sync> Desk for FileDesk<'_, R> {
    ghost stops = { λ d site. if slice_index_or d.found site false then 1 else 0 };

    ghost asked = { λ d. d.asked };

    fn next(&mut self) -> Ask {
        self.asked = true;
        sleep(self.rt, Duration::from_millis(PAUSE));
        let site = self.round.turn();
        if self.found[site] || !matches!(fs::exists(self.rt, NAMES[site]), Ok(true)) {
            return Ask::Nothing;
        }
        self.found[site] = true;
        Ask::Stop(site as u8)
    }
}

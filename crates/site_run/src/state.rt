//! How often a site was asked to stop, as far as it has taken that.

ghost use Rattle.std.specs.Prelude.{◌≡◌, ◌↔◌, ◌<◌, nat_lt, if◌then◌else◌, IsTrue};

/// How often a site was asked to stop before the live stop that it took last; 0 before the first.
#[derive(Drop)]
pub struct SiteState {
    pub taken: u64,
}

impl SiteState {
    /// Before the first poll.
    pub fn new() -> SiteState
        ensures { result.taken ≡ 0 }
    {
        SiteState { taken: 0 }
    }

    /// Whether this number is a live stop: it exceeds the one taken before, and is taken then.
    pub fn poll(&mut self, number: u64) -> bool
        ensures answer { IsTrue result ↔ (self.old.taken < number) }
        ensures taken { self.new.taken ≡ (if nat_lt self.old.taken number then number else self.old.taken) }
    {
        if self.taken < number {
            self.taken = number;
            true
        } else {
            false
        }
    }
}

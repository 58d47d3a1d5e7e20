//! Where the references of a body were found.

use std::alloc::{AllocError, Global};

/// The places at which the references of a body were found, in the order in which it is walked. In the passes of a Shift it
/// is walked again, and they are lent one after another. Nothing is promised of them: a table looks whether a name stands
/// there.
#[derive(Drop)]
pub(crate) struct References {
    places: Vec<u16>,
    at: usize,
}

impl References {
    /// None.
    pub(crate) fn new(alloc: Global) -> References {
        References {
            places: Vec::new(alloc),
            at: 0,
        }
    }

    /// Where the next reference may stand, if it was walked before.
    pub(crate) fn next(&self) -> Option<u16> {
        match self.places.get(self.at) {
            Some(place) => Some(*place),
            None => None,
        }
    }

    /// Goes past the next reference, which was found at this place.
    pub(crate) fn note(&mut self, place: u16) -> Result<(), AllocError> {
        if self.at < self.places.len() {
            self.at += 1;
            return Ok(());
        }
        self.places.push(place)?;
        self.at = self.places.len();
        Ok(())
    }

    /// Goes back to the first reference.
    pub(crate) fn again(&mut self) {
        self.at = 0;
    }

    /// Forgets all of them.
    pub(crate) fn forget(&mut self) {
        self.places.clear();
        self.at = 0;
    }
}

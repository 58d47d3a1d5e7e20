//! What is so of the tables of every executive.

ghost use Rattle.wave_tables.specs.Laws.{WavesAreCounted};

/// The waves of an executive's tables are as many as are counted against the limit of all executives.
pub fn waves_are_counted()
    ensures { WavesAreCounted }
{}

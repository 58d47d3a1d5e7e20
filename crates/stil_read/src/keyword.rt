//! The keywords of statements at the top level.

/// What begins a statement at the top level.
#[derive(Clone, Copy, Debug, PartialEq, Eq)]
pub(crate) enum Keyword {
    Signals,
    SignalGroups,
    Spec,
    Selector,
    Timing,
    ScanStructures,
    MacroDefs,
    Procedures,
    PatternBurst,
    PatternExec,
    Pattern,
    Header,
    UserKeywords,
    UserFunctions,
    Stil,
}

/// The keywords of statements at the top level.
pub(crate) const KEYWORDS: [(&[u8], Keyword); 15] = [
    (b"Signals", Keyword::Signals),
    (b"SignalGroups", Keyword::SignalGroups),
    (b"Spec", Keyword::Spec),
    (b"Selector", Keyword::Selector),
    (b"Timing", Keyword::Timing),
    (b"ScanStructures", Keyword::ScanStructures),
    (b"MacroDefs", Keyword::MacroDefs),
    (b"Procedures", Keyword::Procedures),
    (b"PatternBurst", Keyword::PatternBurst),
    (b"PatternExec", Keyword::PatternExec),
    (b"Pattern", Keyword::Pattern),
    (b"Header", Keyword::Header),
    (b"UserKeywords", Keyword::UserKeywords),
    (b"UserFunctions", Keyword::UserFunctions),
    (b"STIL", Keyword::Stil),
];

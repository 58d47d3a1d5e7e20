//! Laws of what commands print: of a site, that it is the same whatever runs beside it, and how a text is made of sites;
//! and that the text of a lot, a grade and a dump is one for the same bytes.

ghost use Rattle.stil_tool.specs.Alone.{AloneLines, OneText, OtherSite, TextIsSites};
ghost use Rattle.stil_tool.specs.OneText.{OneDumpText, OneGradeText};
ghost use Rattle.stil_tool.specs.Quiet.{OneQuietText, QuietIsUncut, QuietText, UncutText};

use die_sim::Socket;

/// Two runs of one program that end with their text, with the same rows of a site and of no site, and the same netlists of
/// the site's dies, print the same lines for the site where live stops and contacts cut its tries alike: whatever other
/// rows their plans have, and whatever other sites do.
pub fn alone_lines<K: Socket>()
    ensures { AloneLines K.told }
{}

/// Without live stops and contacts the text of a lot is one function of the bytes of its files: any two runs that end with
/// their text print the same.
pub fn one_text<K: Socket>()
    ensures { OneText K.told }
{}

/// Two runs whose rows of a site are the same but for its number record the same there but for the number, print the same
/// lines of its dies, and put them into the same bins. So a lot may be run in parts, each with some of its sites under
/// other numbers.
pub fn other_site<K: Socket>()
    ensures { OtherSite K.told }
{}

/// The text of a run is the lines of its sites by rising number, and then for each bin the sum of the dies that each site
/// has in it.
pub fn text_is_sites<K: Socket>()
    ensures { TextIsSites K.told }
{}

/// Neither a live stop nor a lost contact cuts a try at a site for which no stop was said and whose socket counted no fault.
pub fn quiet_is_uncut<K: Socket>()
    ensures { QuietIsUncut K.told }
{}

/// A run prints the text of its bound plan without cuts where neither live stops nor contacts cut a try, and so where no stop
/// was said and no fault was counted.
pub fn text_without_cuts<K: Socket>()
    ensures uncut { UncutText K.told }
    ensures quiet { QuietText K.told }
{}

/// Any two runs on the same bytes print the same text where no stop was said and no fault was counted.
pub fn one_quiet_text<K: Socket>()
    ensures { OneQuietText K.told }
{}

/// Any two runs of `grade` on the same bytes of program, plan and netlists print the same text, whatever code and circuits
/// each has.
pub fn one_grade_text()
    ensures { OneGradeText }
{}

/// Any two runs of `dump` of a site on the same bytes of program, plan and netlists print the same text.
pub fn one_dump_text()
    ensures { OneDumpText }
{}

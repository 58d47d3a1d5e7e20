//! The laws.

ghost use Rattle.part_laws.specs.Laws.{MergedIsLot, MergedIsOneText, RunsAreRead};
ghost use Rattle.part_laws.specs.Grades.{
  GradesAreRead,
  MergeGradeWritesGrade,
  RunsOfGradeAreOne,
  RunsOfGradeParts,
};
ghost use Rattle.part_laws.specs.Divided.{
  MergedIsQuietText,
  MergedIsUncutText,
  MergeWritesQuietText,
  MergeWritesUncutText,
  OneDivision,
  OneQuietDivision,
};

use die_sim::Socket;

/// The datalog of a run of a part is one that is read as such.
pub fn runs_are_read<K: Socket>()
    ensures { RunsAreRead K.told }
{}

/// The merged text of the datalogs of all parts of a plan, each of a tester of its own, is a datalog of the whole plan, for
/// the tester that these testers are together.
pub fn merged_is_lot<K: Socket>()
    ensures { MergedIsLot K.told }
{}

/// Without live stops and lost contacts the merged text is the one that the files' bytes give: any run of the whole plan
/// prints it.
pub fn merged_is_one_text<K: Socket>()
    ensures { MergedIsOneText K.told }
{}

/// The merged text is that of the bound plan without cuts where neither live stops nor contacts cut a try of a part, and so
/// where no stop was said and no fault was counted. No run of the whole plan is asked for.
pub fn merged_without_cuts<K: Socket>()
    ensures uncut { MergedIsUncutText K.told }
    ensures quiet { MergedIsQuietText K.told }
{}

/// So what `merge` writes of the texts of these runs is that text.
pub fn merge_of_runs<K: Socket>()
    ensures uncut { MergeWritesUncutText K.told }
    ensures quiet { MergeWritesQuietText K.told }
{}

/// Two divisions of one plan, on files of their own with the same bytes, merge to one text under the same conditions.
pub fn one_division<K: Socket>()
    ensures uncut { OneDivision K.told }
    ensures quiet { OneQuietDivision K.told }
{}

/// The texts of runs of all parts of a grade, each on files of its own with the same bytes, are those of the parts of one
/// grade, so they are taken where they are merged.
pub fn grades_are_read()
    ensures { GradesAreRead }
{}

/// Merged, these texts are the grade of what the files say, and so what `grade` prints on these bytes.
pub fn runs_of_grade_parts()
    ensures graded { RunsOfGradeParts }
    ensures one { RunsOfGradeAreOne }
{}

/// So what `merge-grade` writes of these texts is what `grade` prints on these bytes.
pub fn merge_grade_of_runs()
    ensures { MergeGradeWritesGrade }
{}

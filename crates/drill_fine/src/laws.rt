//! Laws of the texts of a drill of a number from 1 to 200.

ghost use Rattle.drill_fine.specs.Laws.{PatternIsFine, PatternIsAccepted, NetIsAccepted, PlanIsAccepted, PlanHasFourSites, DrillIsBound};

/// The pattern has no fault.
pub fn pattern_is_fine()
    ensures { PatternIsFine }
{}

/// Nothing refuses the pattern.
pub fn pattern_is_accepted()
    ensures { PatternIsAccepted }
{}

/// Nothing refuses the netlist.
pub fn net_is_accepted()
    ensures { NetIsAccepted }
{}

/// Nothing refuses the plan.
pub fn plan_is_accepted()
    ensures { PlanIsAccepted }
{}

/// The rows of the plan are those of four dies, at the sites 0 to 3.
pub fn plan_has_four_sites()
    ensures { PlanHasFourSites }
{}

/// What the three texts say is bound.
pub fn drill_is_bound()
    ensures { DrillIsBound }
{}

//! The laws of parts: a part's text is the plan of its rows, and what they say of a number is what the plan says of the
//! number's site.

ghost use Rattle.std.specs.Prelude.{◌≡◌, ◌<◌, ◌/◌, ◌%◌, ◌↔◌, ℕ, List, filter, length, map, true};
ghost use Rattle.plan_rows.specs.Judging.{names_at};
ghost use Rattle.plan_rows.specs.Plan.{IsPlan};
ghost use Rattle.plan_rows.specs.Rows.{sites_of, is_about};
ghost use Rattle.plan_rows.specs.declared.row.Row.{Row};
ghost use Rattle.plan_parts.specs.Moved.{moved};
ghost use Rattle.plan_parts.specs.Cut.{has_dies, part_rows, rank_at, rank_of, site_at, sites_in_part, sites_with_dies};
ghost use Rattle.plan_parts.specs.PartText.{IsPartText};

/// The text of a part is a plan: that of the part's rows.
pub fn part_is_plan()
    ensures { (bytes text : List ℕ) (rows : List Row) (parts part : ℕ) → part < parts
        → IsPartText parts part bytes rows text → IsPlan text (part_rows parts part rows) }
{}

/// The rows of a part that name a number or no site are the plan's rows that name the number's site or none, under the
/// number.
pub fn rows_of_site()
    ensures { (bytes : List ℕ) (rows : List Row) (parts part number : ℕ) → part < parts → IsPlan bytes rows
        → number < sites_in_part parts part (length (sites_with_dies rows))
        → filter (is_about number) (part_rows parts part rows)
        ≡ map (moved number) (filter (is_about (site_at parts part rows number)) rows) }
{}

/// A part has so many sites, each of them with dies: those of the site that has the number there, of the same names.
pub fn sites_of_part()
    ensures count { (bytes : List ℕ) (rows : List Row) (parts part : ℕ) → part < parts → IsPlan bytes rows
        → sites_of (part_rows parts part rows) ≡ sites_in_part parts part (length (sites_with_dies rows)) }
    ensures dies { (bytes : List ℕ) (rows : List Row) (parts part number : ℕ) → part < parts → IsPlan bytes rows
        → number < sites_in_part parts part (length (sites_with_dies rows))
        → has_dies (part_rows parts part rows) number ≡ true }
    ensures names { (bytes : List ℕ) (rows : List Row) (parts part number : ℕ) → part < parts → IsPlan bytes rows
        → number < sites_in_part parts part (length (sites_with_dies rows))
        → names_at number (part_rows parts part rows) ≡ names_at (site_at parts part rows number) rows }
{}

/// The numbers of a part are those whose ranks there are, and each site with dies has a number in one part.
pub fn numbers_of_part()
    ensures within { (parts part ranks number : ℕ) → part < parts
        → (number < sites_in_part parts part ranks) ↔ (rank_at parts part number < ranks) }
    ensures site { (rows : List Row) (parts site : ℕ) → 0 < parts → has_dies rows site ≡ true
        → (rank_of rows site / parts < sites_in_part parts (rank_of rows site % parts) (length (sites_with_dies rows)))
        × (site_at parts (rank_of rows site % parts) rows (rank_of rows site / parts) ≡ site) }
{}

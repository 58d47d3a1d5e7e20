//! The laws.

ghost use Rattle.std.specs.Prelude.{◌≡◌, ◌<◌, ◌++◌, ℕ, List, Some, length, map, sum_by};
ghost use Rattle.std.specs.List.{flat_map, range_with_len};
ghost use Rattle.tester_types.specs.Outside.{Files, file_of};
ghost use Rattle.tester_types.specs.Records.{SiteRecords, records_of};
ghost use Rattle.tester_types.specs.declared.record.Record.{Record};
ghost use Rattle.packed_code.specs.Program.{Program};
ghost use Rattle.page_code.specs.Saved.{Saved};
ghost use Rattle.bench_net.specs.Circuit.{Circuit, IsWhole};
ghost use Rattle.bench_net.specs.Net.{IsNet};
ghost use Rattle.plan_rows.specs.Rows.{sites_of};
ghost use Rattle.lot_plan.specs.Bound.{Bound};
ghost use Rattle.site_meaning.specs.Part.{part_of};
ghost use Rattle.site_meaning.specs.Records.{cuts_of};
ghost use Rattle.site_meaning.specs.Alike.{AreCodesAlike, AreCircuitsAlike};
ghost use Rattle.floor_core.specs.Book.{at_site};
ghost use Rattle.tester_run.specs.Work.{AreRecords};
ghost use Rattle.datalog.specs.DatalogText.{die_bin, site_text, numbered, bins_of, dies_in, total_line, lot_text};
ghost use Rattle.stil_program.specs.Program.{IsProgramOf};
ghost use Rattle.tool_inputs.specs.Inputs.{Inputs, AreInputs, bound_of};
ghost use Rattle.lot_laws.specs.Uncut.{uncut_text};
ghost use Rattle.lot_laws.specs.Alone.{lines_of, IsOneProgram, AreOneNets, SayTheSame, AreUncut};

/// Two codes of one text say the same: signals, tables, rows, and of each executive its name, its chains and its cycles,
/// although their instructions may differ. A saved program is of one code. So a text's code says what the code says that
/// is loaded from a saved program of it.
pub fn codes_agree()
    ensures text { (bytes : List ℕ) (code other : Program) → IsProgramOf bytes code → IsProgramOf bytes other
        → AreCodesAlike code other }
    ensures saved { (bytes : List ℕ) (code other : Program) → Saved code bytes → Saved other bytes → other ≡ code }
{}

/// Two circuits of one netlist's bytes are alike, in whatever order their gates lie.
pub fn circuits_agree()
    ensures { (bytes : List ℕ) (circuit other : Circuit) → IsNet bytes circuit.net → IsWhole circuit
        → IsNet bytes other.net → IsWhole other → AreCircuitsAlike circuit other }
{}

/// Lots that say the same of a site, by the bytes of their files, record it alike where they cut its tries alike, and
/// equal records give equal lines, whatever else their plans say.
pub fn alone_records()
    ensures records { (files others : Files) (program plan program' plan' : List ℕ) (inputs inputs' : Inputs)
        → AreInputs (Some files) program plan inputs → AreInputs (Some others) program' plan' inputs' → (site : ℕ)
        → SayTheSame files others program program' inputs inputs' site → (entries entries' : List Record)
        → AreRecords (part_of (bound_of inputs) site) entries → AreRecords (part_of (bound_of inputs') site) entries'
        → cuts_of entries ≡ cuts_of entries' → entries ≡ entries' }
    ensures lines { (files others : Files) (program plan program' plan' : List ℕ) (inputs inputs' : Inputs)
        → AreInputs (Some files) program plan inputs → AreInputs (Some others) program' plan' inputs' → (site : ℕ)
        → SayTheSame files others program program' inputs inputs' site → (entries entries' : List Record)
        → AreRecords (part_of (bound_of inputs) site) entries → entries ≡ entries'
        → lines_of inputs site entries ≡ lines_of inputs' site entries' }
{}

/// Where neither live stops nor contacts cut a try, the text of a lot is that of its bound plan without cuts, which is one
/// function of the bytes of the files.
pub fn uncut_lot_text()
    ensures book { (plan : Bound) (book : List SiteRecords) → length book ≡ sites_of plan.rows
        → ((site : ℕ) → site < sites_of plan.rows → AreRecords (part_of plan site) (at_site book site).records)
        → ((site : ℕ) → AreUncut (at_site book site).records)
        → lot_text plan.program plan (records_of book) ≡ uncut_text plan }
    ensures one { (files others : Files) (program plan program' plan' : List ℕ) (inputs inputs' : Inputs)
        → AreInputs (Some files) program plan inputs → AreInputs (Some others) program' plan' inputs'
        → IsOneProgram files others program program' → file_of files plan ≡ file_of others plan'
        → ((site : ℕ) → AreOneNets files others inputs.rows site)
        → uncut_text (bound_of inputs) ≡ uncut_text (bound_of inputs') }
{}

/// Where neither live stops nor contacts cut a try, the text of a lot is one function of the bytes of its files.
pub fn one_lot_text()
    ensures { (files others : Files) (program plan program' plan' : List ℕ) (inputs inputs' : Inputs)
        → AreInputs (Some files) program plan inputs → AreInputs (Some others) program' plan' inputs'
        → IsOneProgram files others program program' → file_of files plan ≡ file_of others plan'
        → ((site : ℕ) → AreOneNets files others inputs.rows site) → (book book' : List SiteRecords)
        → length book ≡ sites_of inputs.rows → length book' ≡ sites_of inputs'.rows
        → ((site : ℕ) → site < sites_of inputs.rows
        → AreRecords (part_of (bound_of inputs) site) (at_site book site).records)
        → ((site : ℕ) → site < sites_of inputs'.rows
        → AreRecords (part_of (bound_of inputs') site) (at_site book' site).records)
        → ((site : ℕ) → AreUncut (at_site book site).records) → ((site : ℕ) → AreUncut (at_site book' site).records)
        → lot_text inputs.code (bound_of inputs) (records_of book)
        ≡ lot_text inputs'.code (bound_of inputs') (records_of book') }
{}

/// The text of a lot is the lines of its sites by rising number, and then for each bin the sum of the dies that each site
/// has in it.
pub fn totals_are_sums()
    ensures { (code : Program) (plan : Bound) (sites : List (List Record)) → lot_text code plan sites
        ≡ numbered (site_text code plan) 0 sites
        ++ flat_map (λ bin. total_line bin (sum_by (λ entries. dies_in bin (map (die_bin plan) entries)) sites))
        (range_with_len 1 99) }
{}

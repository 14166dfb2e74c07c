//! Laws of the definitions: each function's contract is the law, and its body is empty.
ghost use Rattle.std.specs.Prelude.{◌≡◌, ◌≤◌, ◌+◌, ◌-◌, ◌*◌, List, ℕ, ◌⊎◌};
ghost use Rattle.em_report.specs.declared.report.ReportLine.{ReportLine};
ghost use Rattle.em_insight.specs.declared.data.Chain.{Chain};
ghost use Rattle.em_insight.specs.declared.data.Slot.{Slot};
ghost use Rattle.em_insight.specs.Jobs.{total};
ghost use Rattle.em_insight.specs.Chains.{IsChain, weight, Certifies, IsNamed};
ghost use Rattle.em_insight.specs.Schedules.{IsGreedy, IsLegal, span};
ghost use Rattle.em_insight.specs.Found.{path_of, slots_of};

/// No chain weighs more than the critical path, and of several paths of its weight one is named.
pub fn law_longest()
    ensures heaviest { (ls : List ReportLine) (c : Chain) → Certifies ls c
        → (js : List ℕ) → IsChain ls js → weight ls js ≤ c.fuel }
    ensures one { (ls : List ReportLine) (c d : Chain) → Certifies ls c → Certifies ls d
        → IsNamed ls c → IsNamed ls d → (c.jobs ≡ d.jobs) × (c.fuel ≡ d.fuel) }
{}

/// List scheduling gives a legal schedule, and one only.
pub fn law_legal()
    ensures legal { (ls : List ReportLine) (n : ℕ) (ss : List Slot)
        → IsGreedy ls n ss → IsLegal ls n ss }
    ensures one { (ls : List ReportLine) (n : ℕ) (ss ts : List Slot)
        → IsGreedy ls n ss → IsGreedy ls n ts → ss ≡ ts }
{}

/// The critical path is the path that is found of the lines.
pub fn law_path()
    ensures jobs { (ls : List ReportLine) (c : Chain) → Certifies ls c → IsNamed ls c
        → c.jobs ≡ path_of ls }
    ensures fuel { (ls : List ReportLine) (c : Chain) → Certifies ls c → IsNamed ls c
        → c.fuel ≡ weight ls (path_of ls) }
{}

/// The slots of list scheduling are those that are found of the lines.
pub fn law_slots()
    ensures { (ls : List ReportLine) (n : ℕ) (ss : List Slot) → IsGreedy ls n ss
        → ss ≡ slots_of ls n }
{}

/// No legal schedule is shorter than a chain, nor than the fuel of all jobs shared evenly by the
/// agents.
pub fn law_lower()
    ensures chain { (ls : List ReportLine) (n : ℕ) (ss : List Slot) → IsLegal ls n ss
        → (js : List ℕ) → IsChain ls js → weight ls js ≤ span ls ss }
    ensures shared { (ls : List ReportLine) (n : ℕ) (ss : List Slot) → IsLegal ls n ss
        → total ls ≤ n * span ls ss }
{}

/// Graham's bound on list scheduling: with m agents it takes at most `total / m + (m - 1) / m`
/// critical paths.
pub fn law_bound()
    ensures { (ls : List ReportLine) (n : ℕ) (ss : List Slot) (c : Chain)
        → IsGreedy ls n ss → Certifies ls c → n * span ls ss ≤ total ls + (n - 1) * c.fuel }
{}

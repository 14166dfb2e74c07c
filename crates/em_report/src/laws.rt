//! Laws of the definitions: each function's contract is the law, and its body is empty.
ghost use Rattle.std.specs.Prelude.{◌≡◌, List, ℕ};
ghost use Rattle.em_report.specs.Reports.{report_text, IsReport, IsFault};
ghost use Rattle.em_report.specs.declared.report.Report.{Report};

/// A text is one report's at most, and has one fault at most.
pub fn law_one_report()
    ensures report { (r s : Report) → IsReport r → IsReport s
        → report_text r ≡ report_text s → r ≡ s }
    ensures fault { (bytes : List ℕ) (a b : ℕ) → IsFault bytes a → IsFault bytes b → a ≡ b }
{}

ghost use Rattle.std.specs.Prelude.{◌≡◌, ◌↔◌, ℕ, List, [], ◌++◌, All, codes, flat_map};
ghost use Rattle.dlk_calculus.specs.Provables.{Provable};
ghost use Rattle.dlk_report.specs.Reports.{text_report};
ghost use Rattle.dlk_report.specs.Json.{in_quotes, IsPlain, backslash_twice};

/// The text of a report begins with `closed` exactly where no goals are left. The statement of reports asks for it.
pub fn first_line()
    ensures closed { (p : Provable) (lines : ℕ) → p.goals ≡ [] → (rest : List ℕ) × (text_report p lines ≡ codes "closed" ++ rest) }
    ensures closed_only { (p : Provable) (lines : ℕ) (rest : List ℕ) → text_report p lines ≡ codes "closed" ++ rest → p.goals ≡ [] }
{}

/// In quotes each byte from 32 to 126 but the quote stands as it is, and the backslash twice.
/// The statement of reports asks for it.
pub fn escapes()
    ensures { (text : List ℕ) → All IsPlain text → in_quotes text ≡ codes "\"" ++ (flat_map backslash_twice text ++ codes "\"") }
{}

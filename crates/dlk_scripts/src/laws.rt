//! The laws of the texts of strategies. Each is a contract of a function that does nothing.
ghost use Rattle.std.specs.Prelude.{◌≡◌, ◌⊎◌, ℕ, List, length};
ghost use Rattle.dlk_scripts.specs.declared.part.Part.{Part as ThePart};
ghost use Rattle.dlk_scripts.specs.Parts.{RiseTo};
ghost use Rattle.dlk_scripts.specs.Scripts.{Script};
ghost use Rattle.dlk_scripts.specs.Texts.{IsScript, HasParts, Stops};

/// A text says at most one script.
pub fn one_script()
    ensures { (bytes : List ℕ) (t u : Script) → IsScript bytes t → IsScript bytes u → t ≡ u }
{}

/// A text has at most one list of parts.
pub fn one_parts()
    ensures { (bytes : List ℕ) (parts others : List ThePart) → HasParts bytes parts → HasParts bytes others → parts ≡ others }
{}

/// A text stops in at most one place.
pub fn one_stop()
    ensures { (bytes : List ℕ) (i j : ℕ) → Stops bytes i → Stops bytes j → i ≡ j }
{}

/// A text that says a script stops nowhere.
pub fn no_stop()
    ensures { (bytes : List ℕ) (t : Script) (i : ℕ) → IsScript bytes t → Stops bytes i → ⊥ }
{}

/// Each text says a script or stops.
pub fn script_or_stop()
    ensures { (bytes : List ℕ) → ((t : Script) × IsScript bytes t) ⊎ ((at : ℕ) × Stops bytes at) }
{}

/// The places of a text's parts rise, and are places of its bytes.
pub fn parts_rise()
    ensures { (bytes : List ℕ) (parts : List ThePart) → HasParts bytes parts → RiseTo 0 parts (length bytes) }
{}

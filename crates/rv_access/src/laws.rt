//! Laws over the texts of lists, and over what they decide.

ghost use Rattle.std.specs.Prelude.{◌≡◌, ℕ, List};
ghost use Rattle.std.specs.List.{All};
ghost use Rattle.rv_access.specs.Words.{Words};
ghost use Rattle.rv_access.specs.Spelled.{IsSpelled};
ghost use Rattle.rv_access.specs.Text.{list_text};
ghost use Rattle.rv_access.specs.Lines.{decides, grants};
ghost use Rattle.rv_access.specs.Timeless.{IsTimeless};

/// The text of a list determines the list: no two lists of lines that a text can hold have one text.
pub fn texts_determine_lists()
    ensures { (one other : List Words) → All IsSpelled one → All IsSpelled other →
        list_text one ≡ list_text other → one ≡ other }
{}

/// On a list without windows the decision is the same for all ticks.
pub fn lists_without_windows_heed_no_tick()
    ensures line { (lines : List Words) (unit object operation : List ℕ) (one other : ℕ) → IsTimeless lines
        → decides lines unit object operation one ≡ decides lines unit object operation other }
    ensures granted { (lines : List Words) (unit object operation : List ℕ) (one other : ℕ) → IsTimeless lines
        → grants lines unit object operation one ≡ grants lines unit object operation other }
{}

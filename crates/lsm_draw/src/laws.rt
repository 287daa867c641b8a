//! Why no two labels overlap, and why no text is markup. The functions do nothing: each is the proof of its contract.

ghost use Rattle.std.specs.Prelude.{ℕ, ◌+◌, ◌*◌, ◌≤◌, ◌<◌, ◌⊎◌, ◌≡◌, List, true};
ghost use Rattle.std.specs.List.{list_all};
ghost use Rattle.lsm_draw.specs.Places.{line_x, names_row_y, row_y};
ghost use Rattle.lsm_draw.specs.Texts.{escaped, is_plain};
ghost use Rattle.lsm_draw.specs.declared.place.TheConstants.{CELL, LABEL_CHARS, LABEL_GAP, MARGIN, ROW, SCRIPT_CHARS};

/// Rows are a row's height apart, and so is each row of names from each other row.
pub fn rows_are_apart()
    ensures rows { (row other : ℕ) → row < other → row_y row + ROW ≤ row_y other }
    ensures names { (row band : ℕ) → (row_y row + ROW ≤ names_row_y band) ⊎ (names_row_y band + ROW ≤ row_y row) }
{}

/// Each column ends where the next one begins, or before it: the script's lines, the labels of the coordinator, its line; and the
/// labels of each other node, before the line of the next one.
pub fn columns_hold_their_texts()
    ensures coordinator { MARGIN + CELL * SCRIPT_CHARS + CELL * LABEL_CHARS + LABEL_GAP ≤ line_x 0 }
    ensures labels { (column : ℕ) → line_x column + LABEL_GAP + CELL * LABEL_CHARS ≤ line_x (column + 1) }
{}

/// No byte of an escaped text begins or ends a tag or a quoted text.
pub fn no_text_is_markup()
    ensures { (text : List ℕ) → list_all is_plain (escaped text) ≡ true }
{}

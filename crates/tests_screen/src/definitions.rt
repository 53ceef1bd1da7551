//! Examples of definitions: what they say of fixed values, worked out by hand. No call is made
//! here.
ghost use Rattle.std.specs.Prelude.{◌≡◌, ℕ, [], ◌∷◌, None, Some, true, false};
ghost use Rattle.line_buffer.specs.declared.movement.Movement.TheVariants.{BackwardChar, BeginningOfLine, EndOfLine, ForwardChar, ForwardWord, LineDown, WholeLine};
ghost use Rattle.line_buffer.specs.declared.movement.At.TheVariants.{AfterEnd};
ghost use Rattle.line_config.specs.declared.config.EditMode.TheVariants as styles;
ghost use Rattle.line_keys.specs.Command.{abort, accept_line, insert, kill, move, replace, replace_char, self_insert, undo, unknown, yank, yank_pop};
ghost use Rattle.line_keys.specs.Count.{begins_count, continues_count, count_of, is_count_before};
ghost use Rattle.line_keys.specs.Key.{event};
ghost use Rattle.line_keys.specs.Redo.{bound_anew, redone};
ghost use Rattle.line_keys.specs.Table.{one, second_at};
ghost use Rattle.line_keys.specs.declared.cmd.Anchor.TheVariants.{Before};
ghost use Rattle.line_keys.specs.declared.refresher.InputMode.TheVariants as modes;
ghost use Rattle.line_keys.specs.declared.keys.KeyCode.TheVariants.{Backspace, Char, Enter, Esc};
ghost use Rattle.line_keys.specs.declared.keys.TheConstants.Modifiers.{ALT, CTRL, NONE};

/// What the keys of a count write, which keys begin a count, and which go on with it.
pub fn what_counts_say()
    // M--, 2 and 3 write -23: the digits are counted apart from the sign.
    ensures minus_two_three { count_of (event (Char 45) ALT ∷ event (Char 50) NONE ∷ event (Char 51) NONE ∷ [])
        ≡ record { n = 23; positive = false } }
    // M-- alone writes -1.
    ensures minus_alone { count_of (event (Char 45) ALT ∷ []) ≡ record { n = 1; positive = false } }
    // M-0 writes 1.
    ensures zero { count_of (event (Char 48) ALT ∷ []) ≡ one }
    // M-- and 0 write 1, whatever the sign.
    ensures minus_zero { count_of (event (Char 45) ALT ∷ event (Char 48) NONE ∷ []) ≡ one }
    // M-2, - and 3 write 23: a minus sign inside is passed over.
    ensures minus_inside { count_of (event (Char 50) ALT ∷ event (Char 45) NONE ∷ event (Char 51) NONE ∷ [])
        ≡ record { n = 23; positive = true } }
    // M-9 and six nines write 9999.
    ensures seven_nines { let nine = event (Char 57) NONE in
        count_of (event (Char 57) ALT ∷ nine ∷ nine ∷ nine ∷ nine ∷ nine ∷ nine ∷ [])
        ≡ record { n = 9999; positive = true } }
    // M-1, three zeros and 5 write 1000: the first beginning that writes at least 1000 counts.
    ensures a_thousand { let zero = event (Char 48) NONE in
        count_of (event (Char 49) ALT ∷ zero ∷ zero ∷ zero ∷ event (Char 53) NONE ∷ [])
        ≡ record { n = 1000; positive = true } }
    // Without keys the count is 1.
    ensures no_keys { count_of [] ≡ one }
    // In Emacs M-5 begins a count and 5 does not; in Vi's command mode it is the other way round.
    ensures emacs_alt { begins_count styles.Emacs modes.Insert (event (Char 53) ALT) ≡ true }
    ensures emacs { begins_count styles.Emacs modes.Insert (event (Char 53) NONE) ≡ false }
    ensures vi_alt { begins_count styles.Vi modes.Command (event (Char 53) ALT) ≡ false }
    ensures vi { begins_count styles.Vi modes.Command (event (Char 53) NONE) ≡ true }
    ensures vi_insert { begins_count styles.Vi modes.Insert (event (Char 53) NONE) ≡ false }
    // In Vi's command mode 0 begins no count, and goes on with one.
    ensures zero_begins { begins_count styles.Vi modes.Command (event (Char 48) NONE) ≡ false }
    ensures zero_goes_on { continues_count styles.Vi (event (Char 48) NONE) ≡ true }
    // After M-5 the key 3 is one of the count, and Enter ends it.
    ensures enter { is_count_before styles.Emacs modes.Insert (event (Char 53) ALT ∷ [])
        (event Enter NONE) ≡ true }
    ensures digit { is_count_before styles.Emacs modes.Insert (event (Char 53) ALT ∷ [])
        (event (Char 51) NONE) ≡ false }
{}

/// What second keys do, and what a command becomes that is done again.
pub fn what_commands_become()
    ensures takes_back { second_at (record { n = 3; positive = true }) (event (Char 85) CTRL) ≡ undo 3 }
    ensures kills_on { second_at (record { n = 3; positive = false }) (event Backspace NONE)
        ≡ kill EndOfLine }
    ensures aborts { second_at one (event Esc NONE) ≡ abort }
    ensures other { second_at one (event (Char 97) NONE) ≡ unknown }
    // A kill or a move done again takes the new count; without one it keeps its own.
    ensures kills { redone true (Some 3) None (kill (ForwardChar 7)) ≡ kill (ForwardChar 3) }
    ensures keeps { redone true None None (kill (BackwardChar 7)) ≡ kill (BackwardChar 7) }
    ensures moves { bound_anew (Some 1) None (move (BackwardChar 65535)) ≡ move (BackwardChar 1) }
    ensures uncounted { redone true (Some 3) None (kill WholeLine) ≡ kill WholeLine }
    // An insertion, a yank and a replaced character done again take the new count; without one they
    // keep their own.
    ensures inserts { redone true (Some 2) None (insert 5 (107 ∷ [])) ≡ insert 2 (107 ∷ []) }
    ensures yanks { redone true (Some 2) None (yank 5 Before) ≡ yank 2 Before }
    ensures replaces { redone true (Some 2) None (replace_char 5 120) ≡ replace_char 2 120 }
    ensures keeps_its_own { redone true None None (replace_char 5 120) ≡ replace_char 5 120 }
    // The dot puts the last text in again for a typed character; a bound one keeps its character.
    ensures dot { redone true (Some 2) (Some (97 ∷ 98 ∷ [])) (self_insert 1 98)
        ≡ insert 2 (97 ∷ 98 ∷ []) }
    ensures alone { redone true (Some 2) None (self_insert 1 98) ≡ self_insert 2 98 }
    ensures bound { redone false (Some 2) (Some (97 ∷ 98 ∷ [])) (self_insert 1 98)
        ≡ self_insert 2 98 }
    // A replacement done again takes the last text; where it was typed over the line, over as many
    // clusters as that has bytes.
    ensures by_movement { redone true (Some 2) (Some (120 ∷ [])) (replace (ForwardChar 1) None)
        ≡ replace (ForwardChar 2) (Some (120 ∷ [])) }
    ensures over { redone true (Some 9) (Some (120 ∷ 121 ∷ [])) (replace (ForwardChar 0) None)
        ≡ replace (ForwardChar 2) (Some (120 ∷ 121 ∷ [])) }
    ensures over_nothing { redone true (Some 9) None (replace (ForwardChar 0) None)
        ≡ replace (ForwardChar 0) None }
    ensures own_text { redone true (Some 2) (Some (120 ∷ [])) (replace (ForwardChar 0) (Some []))
        ≡ replace (ForwardChar 2) (Some []) }
    // What can't be done again stays for a binding too.
    ensures accepts { bound_anew (Some 3) None accept_line ≡ accept_line }
    ensures undoes { bound_anew (Some 3) None (undo 1) ≡ undo 1 }
    ensures pops { bound_anew (Some 3) None yank_pop ≡ yank_pop }
{}

//! Examples of phrases: what the definitions say of fixed keys, worked out by hand. No call is made
//! here.
ghost use Rattle.std.specs.Prelude.{◌≡◌, [], ◌∷◌, None, Some, false, true};
ghost use Rattle.line_buffer.specs.declared.movement.CharSearch.TheVariants.{Backward, Forward};
ghost use Rattle.line_buffer.specs.declared.movement.Movement.TheVariants.{BackwardChar, ViCharSearch};
ghost use Rattle.line_config.specs.declared.config.EditMode.TheVariants as styles;
ghost use Rattle.line_config.specs.declared.config.EditMode.TheVariants.{Emacs};
ghost use Rattle.line_editor.specs.Binding.{answers, handler_of, leads_on};
ghost use Rattle.line_editor.specs.Event.{each_key, keys, mouse, normal_chord, same_chord};
ghost use Rattle.line_editor.specs.Input.{first_input};
ghost use Rattle.line_editor.specs.Keymap.{bound_command, by_binding, by_reader, by_table, handed, nothing_bound, on_line, only_bound, source_of};
ghost use Rattle.line_editor.specs.Phrase.{IsBeginning, Phrase};
ghost use Rattle.line_editor.specs.Sequence.{Sequences};
ghost use Rattle.line_editor.specs.ItemShown.{kept, shows_count, shows_line};
ghost use Rattle.line_editor.specs.Tail.{Tailed};
ghost use Rattle.line_keys.specs.Command.{end_of_file, insert, interrupt, move, noop, self_insert, undo, unknown};
ghost use Rattle.line_keys.specs.Model.Draft.{Draft, empty_draft, hinted};
ghost use Rattle.line_keys.specs.Item.{key, paste};
ghost use Rattle.line_keys.specs.Key.{event};
ghost use Rattle.line_keys.specs.Table.{gives, one, row_of, searches, stays, unlisted};
ghost use Rattle.line_keys.specs.declared.keys.KeyCode.TheVariants.{BracketedPasteStart, Char, Enter, F};
ghost use Rattle.line_keys.specs.declared.refresher.InputMode.TheVariants as modes;
ghost use Rattle.line_keys.specs.declared.keys.KeyEvent.{KeyEvent};
ghost use Rattle.line_keys.specs.declared.keys.TheConstants.Modifiers.{ALT, CTRL, NONE};
ghost use Rattle.line_parts.specs.Environment.{Environment};

/// Phrases of Emacs, where nothing is bound, and where keys are.
pub fn phrases_of_emacs()
    // M-3 and a are a phrase that inserts three a's; the hint is asked again.
    ensures three_times_a { (environment : Environment) → Phrase nothing_bound environment (empty_draft 0)
        (first_input Emacs) (key (event (Char 51) ALT) ∷ key (event (Char 97) NONE) ∷ [])
        (record {
          command = self_insert 3 97;
          draft = hinted environment (empty_draft 0);
          input = first_input Emacs;
          shown = shows_count (event (Char 51) ALT ∷ []) ∷ shows_line ∷ [];
        }) }
    // M--, 2 and C-F are a phrase that goes two characters back.
    ensures two_back { (environment : Environment) → Phrase nothing_bound environment (empty_draft 0)
        (first_input Emacs)
        (key (event (Char 45) ALT) ∷ key (event (Char 50) NONE) ∷ key (event (Char 70) CTRL) ∷ [])
        (record {
          command = move (BackwardChar 2);
          draft = hinted environment (empty_draft 0);
          input = first_input Emacs;
          shown = shows_count (event (Char 45) ALT ∷ [])
              ∷ shows_count (event (Char 45) ALT ∷ event (Char 50) NONE ∷ []) ∷ shows_line ∷ [];
        }) }
    // M-3, C-X and C-U are a phrase that takes three steps back.
    ensures undo_three { (environment : Environment) → Phrase nothing_bound environment (empty_draft 0)
        (first_input Emacs)
        (key (event (Char 51) ALT) ∷ key (event (Char 88) CTRL) ∷ key (event (Char 85) CTRL) ∷ [])
        (record {
          command = undo 3;
          draft = hinted environment (empty_draft 0);
          input = first_input Emacs;
          shown = shows_count (event (Char 51) ALT ∷ []) ∷ shows_line ∷ kept ∷ [];
        }) }
    // The mark before a pasted text and the text x are a phrase that inserts x once, and nothing
    // else changes.
    ensures paste_once { (environment : Environment) → Phrase nothing_bound environment (empty_draft 0)
        (first_input Emacs) (key (event BracketedPasteStart NONE) ∷ paste (120 ∷ []) ∷ [])
        (record {
          command = insert 1 (120 ∷ []);
          draft = empty_draft 0;
          input = first_input Emacs;
          shown = kept ∷ kept ∷ [];
        }) }
    // C-X alone begins a phrase, and is none.
    ensures control_x_begins { (environment : Environment)
        → IsBeginning nothing_bound environment (empty_draft 0) (first_input Emacs)
        (key (event (Char 88) CTRL) ∷ []) }
    // M--, C-] and a are a phrase that goes to the a before the cursor.
    ensures back_to_a_character { (environment : Environment) → Phrase nothing_bound environment (empty_draft 0)
        (first_input Emacs)
        (key (event (Char 45) ALT) ∷ key (event (Char 93) CTRL) ∷ key (event (Char 97) NONE) ∷ [])
        (record {
          command = move (ViCharSearch 1 (Backward 97));
          draft = hinted environment (empty_draft 0);
          input = first_input Emacs;
          shown = shows_count (event (Char 45) ALT ∷ []) ∷ shows_line ∷ kept ∷ [];
        }) }
    // F4, which no table has, is a phrase that does nothing, where nothing is bound.
    ensures no_table { (environment : Environment) → Phrase nothing_bound environment (empty_draft 0)
        (first_input Emacs) (key (event (F 4) NONE) ∷ [])
        (record {
          command = unknown;
          draft = empty_draft 0;
          input = first_input Emacs;
          shown = kept ∷ [];
        }) }
    // After a key that searches with the count 2, the key b gives the move to the second b.
    ensures plain_key { (s : Sequences) (environment : Environment) (draft : Draft) (last : KeyEvent) →
        Tailed s environment draft (first_input Emacs) last (searches 2 (λ c. Forward c))
        (key (event (Char 98) NONE) ∷ []) (record {
          command = move (ViCharSearch 2 (Forward 98));
          draft = draft;
          input = record (first_input Emacs) { last_search = Some (Forward 98) };
          shown = kept ∷ [];
        }) }
    // After a key that searches with the count 2, Enter is read too, and stands for nothing.
    ensures other_key { (s : Sequences) (environment : Environment) (draft : Draft) (last : KeyEvent) →
        Tailed s environment draft (first_input Emacs) last (searches 2 (λ c. Forward c))
        (key (event Enter NONE) ∷ []) (record {
          command = unknown;
          draft = draft;
          input = first_input Emacs;
          shown = kept ∷ [];
        }) }
    // Where the sequence C-X, a is bound, these keys are its command.
    ensures bound_sequence { (environment : Environment) →
        let sequence = keys (event (Char 88) CTRL ∷ event (Char 97) NONE ∷ []) in
        Phrase (only_bound sequence (Some noop)) environment (empty_draft 0) (first_input Emacs)
        (key (event (Char 88) CTRL) ∷ key (event (Char 97) NONE) ∷ [])
        (record {
          command = noop;
          draft = empty_draft 0;
          input = first_input Emacs;
          shown = kept ∷ kept ∷ [];
        }) }
    // Where the sequence C-X, a is bound, C-X, b is read in vain, and b is lost.
    ensures read_in_vain { (environment : Environment) →
        let sequence = keys (event (Char 88) CTRL ∷ event (Char 97) NONE ∷ []) in
        Phrase (only_bound sequence (Some noop)) environment (empty_draft 0) (first_input Emacs)
        (key (event (Char 88) CTRL) ∷ key (event (Char 98) NONE) ∷ [])
        (record {
          command = unknown;
          draft = empty_draft 0;
          input = first_input Emacs;
          shown = kept ∷ kept ∷ [];
        }) }
    // Where the sequence C-X, a is bound, C-X, C-U takes a step back: the second of the keys read
    // in vain counts.
    ensures second_key_of_all { (environment : Environment) →
        let sequence = keys (event (Char 88) CTRL ∷ event (Char 97) NONE ∷ []) in
        Phrase (only_bound sequence (Some noop)) environment (empty_draft 0) (first_input Emacs)
        (key (event (Char 88) CTRL) ∷ key (event (Char 85) CTRL) ∷ [])
        (record {
          command = undo 1;
          draft = empty_draft 0;
          input = first_input Emacs;
          shown = kept ∷ kept ∷ [];
        }) }
    // F4 with a handler that answers nothing is a bound sequence: one more key is read in vain.
    ensures without_an_answer { (environment : Environment) →
        Phrase (only_bound (keys (event (F 4) NONE ∷ [])) None) environment (empty_draft 0)
        (first_input Emacs) (key (event (F 4) NONE) ∷ key (event (Char 97) NONE) ∷ [])
        (record {
          command = unknown;
          draft = empty_draft 0;
          input = first_input Emacs;
          shown = kept ∷ kept ∷ [];
        }) }
    // M-3 and a key that is bound to one x insert three x's.
    ensures takes_the_count { (environment : Environment) →
        Phrase (only_bound (keys (event (F 2) NONE ∷ [])) (Some (self_insert 1 120))) environment
        (empty_draft 0) (first_input Emacs)
        (key (event (Char 51) ALT) ∷ key (event (F 2) NONE) ∷ [])
        (record {
          command = self_insert 3 120;
          draft = hinted environment (empty_draft 0);
          input = first_input Emacs;
          shown = shows_count (event (Char 51) ALT ∷ []) ∷ shows_line ∷ [];
        }) }
    // A binding of each key is that of the key a too.
    ensures each_key { (environment : Environment) → Phrase (only_bound each_key (Some noop)) environment
        (empty_draft 0) (first_input Emacs) (key (event (Char 97) NONE) ∷ [])
        (record {
          command = noop;
          draft = empty_draft 0;
          input = first_input Emacs;
          shown = kept ∷ [];
        }) }
{}

/// Where the command of a key comes from.
pub fn what_a_key_stands_for()
    // In Vi's insert mode a key's binding is handed 0, in Emacs the count that was typed, or 1.
    ensures handed_in_vi { handed styles.Vi modes.Insert None ≡ record { n = 0; positive = true } }
    ensures handed_in_emacs { handed styles.Emacs modes.Insert (Some (record { n = 3; positive = false }))
        ≡ record { n = 3; positive = false } }
    ensures handed_untyped { handed styles.Emacs modes.Insert None ≡ one }
    // By the table C-D on an empty line is Unknown. The reader's end of the input counts on an
    // empty line, and not on another.
    ensures end_by_table { (row_of Emacs modes.Insert (event (Char 68) CTRL) (empty_draft 0)).entry None
        ≡ stays (gives unknown) }
    ensures end_on_empty { on_line [] (Some end_of_file) ≡ Some end_of_file }
    ensures end_on_text { on_line (97 ∷ []) (Some end_of_file) ≡ None }
    ensures other_on_text { on_line (97 ∷ []) (Some interrupt) ≡ Some interrupt }
    // F2 does what a binding says, else what the reader says, else what the table says.
    ensures bound_first { let bound = (keys (event (F 2) NONE ∷ []), answers (Some noop)) ∷ [] in
        source_of (record { bound = bound; own = λ typed. Some interrupt }) (empty_draft 0)
        (first_input Emacs) None (event (F 2) NONE) ≡ by_binding noop }
    ensures reader_next { source_of (record { bound = []; own = λ typed. Some interrupt })
        (empty_draft 0) (first_input Emacs) None (event (F 2) NONE) ≡ by_reader interrupt }
    ensures table_last { source_of nothing_bound (empty_draft 0) (first_input Emacs) None
        (event (F 2) NONE) ≡ by_table (stays unlisted) }
    // Where F2's own handler answers nothing, that of each key is not asked for it.
    ensures own_handler { bound_command (record {
      bound = (each_key, answers (Some noop)) ∷ (keys (event (F 2) NONE ∷ []), answers None) ∷ [];
      own = λ typed. None;
    }) (empty_draft 0) (first_input Emacs) None (event (F 2) NONE) ≡ None }
    // Where C-X, a is bound, one more key is read after C-X, and none after C-X, b; C-X alone has
    // no handler.
    ensures beginning_of_sequence { let begin = event (Char 88) CTRL in
        let bound = (keys (begin ∷ event (Char 97) NONE ∷ []), answers (Some noop)) ∷ [] in
        (leads_on bound (begin ∷ []) ≡ true)
        × (leads_on bound (begin ∷ event (Char 98) NONE ∷ []) ≡ false)
        × (handler_of bound (keys (begin ∷ [])) ≡ None) }
    // The keys C-a and C-A are two events, and the same in normal form.
    ensures apart { same_chord (keys (event (Char 97) CTRL ∷ [])) (keys (event (Char 65) CTRL ∷ []))
        ≡ false }
    ensures normal { normal_chord (keys (event (Char 97) CTRL ∷ []))
        ≡ keys (event (Char 65) CTRL ∷ []) }
    ensures mouse { same_chord mouse each_key ≡ false }
{}

//! Examples of Vi's phrases: what the definitions say of fixed keys, worked out by hand. No call is
//! made here.
ghost use Rattle.std.specs.Prelude.{◌≡◌, [], ◌∷◌, None, Some, false, true};
ghost use Rattle.line_buffer.specs.declared.movement.At.TheVariants.{AfterEnd, Start};
ghost use Rattle.line_buffer.specs.declared.movement.CharSearch.TheVariants.{Backward, Forward, ForwardBefore};
ghost use Rattle.line_buffer.specs.declared.movement.Movement.TheVariants.{BackwardChar, BeginningOfLine, ForwardChar, ForwardWord, ViCharSearch, WholeLine};
ghost use Rattle.line_buffer.specs.declared.movement.Word.TheVariants as words;
ghost use Rattle.line_editor.specs.Event.{keys};
ghost use Rattle.line_editor.specs.Keymap.{nothing_bound, only_bound};
ghost use Rattle.line_keys.specs.Command.{indent, insert, kill, move, noop, overwrite, replace, replace_char, self_insert, unknown, vi_yank_to, yank};
ghost use Rattle.line_keys.specs.Model.Draft.{in_group, out_of_group};
ghost use Rattle.line_keys.specs.Key.{event};
ghost use Rattle.line_keys.specs.Redo.{becomes_change};
ghost use Rattle.line_keys.specs.declared.cmd.Anchor.TheVariants.{After};
ghost use Rattle.line_keys.specs.declared.keys.KeyCode.TheVariants.{Enter, Esc};
ghost use Rattle.line_keys.specs.declared.keys.TheConstants.Modifiers.{NONE};
ghost use Rattle.line_keys.specs.declared.refresher.InputMode.TheVariants.{Command, Insert, Replace};
ghost use Rattle.tests_screen.specs.Spoken.{Comes, InCommandMode, InInsertMode, LeavesDraft, TwiceAgain, TwiceAgainBehind, blank, commanding, inserting, plain, typed, vi, with_alt};

/// Counts, operators with their motions, and searches for a character, on an empty line in command
/// mode.
pub fn operators_and_searches()
    // The keys 0 2 d 3 w are two phrases: 0 goes to the line's start, and the others kill to the
    // sixth word on.
    ensures zero { InCommandMode (typed (48 ∷ [])) (move BeginningOfLine) commanding }
    ensures multiplied { let killed = kill (ForwardWord 6 Start words.Vi) in
        InCommandMode (typed (50 ∷ 100 ∷ 51 ∷ 119 ∷ [])) killed (vi Command (Some killed) None) }
    // 12345d9999l kills as many clusters as a count can say.
    ensures saturated { let killed = kill (ForwardChar 65535) in
        let keys = typed (49 ∷ 50 ∷ 51 ∷ 52 ∷ 53 ∷ 100 ∷ 57 ∷ 57 ∷ 57 ∷ 57 ∷ 108 ∷ []) in
        InCommandMode keys killed (vi Command (Some killed) None) }
    // 3dd kills one line. After a count of its own d is no motion, and neither is c after d.
    ensures whole { let left = vi Command (Some (kill WholeLine)) None in
        InCommandMode (typed (51 ∷ 100 ∷ 100 ∷ [])) (kill WholeLine) left }
    ensures counted { InCommandMode (typed (100 ∷ 50 ∷ 100 ∷ [])) unknown commanding }
    ensures other { InCommandMode (typed (100 ∷ 99 ∷ [])) unknown commanding }
    // A change by words goes to their end, and a kill to the start of the next one.
    ensures vi_word { let changed = replace (ForwardWord 1 AfterEnd words.Vi) None in
        InCommandMode (typed (99 ∷ 119 ∷ [])) changed (vi Insert (Some changed) None) }
    ensures big_word { let changed = replace (ForwardWord 1 AfterEnd words.Big) None in
        InCommandMode (typed (99 ∷ 87 ∷ [])) changed (vi Insert (Some changed) None) }
    ensures killed { let killed = kill (ForwardWord 1 Start words.Big) in
        InCommandMode (typed (100 ∷ 87 ∷ [])) killed (vi Command (Some killed) None) }
    // A change without a motion stays in insert mode.
    ensures changes_nothing { InCommandMode (typed (99 ∷ 113 ∷ [])) unknown inserting }
    // A search is kept where a plain character is read, also after an operator; any other key
    // leaves the one before.
    ensures moved { let left = vi Command None (Some (Forward 120)) in
        InCommandMode (typed (102 ∷ 120 ∷ [])) (move (ViCharSearch 1 (Forward 120))) left }
    ensures killed_to_a_character { let killed = kill (ViCharSearch 2 (ForwardBefore 120)) in
        let left = vi Command (Some killed) (Some (ForwardBefore 120)) in
        InCommandMode (typed (100 ∷ 50 ∷ 116 ∷ 120 ∷ [])) killed left }
    ensures other_key { let kept = vi Command None (Some (Forward 120)) in
        Comes nothing_bound blank kept (plain 102 ∷ event Enter NONE ∷ []) unknown kept }
    // The last search again, and its opposite. Without one they do nothing, and are no motion.
    ensures same { let kept = vi Command None (Some (Forward 120)) in
        let found = move (ViCharSearch 3 (Forward 120)) in
        Comes nothing_bound blank kept (typed (51 ∷ 59 ∷ [])) found kept }
    ensures opposite { let kept = vi Command None (Some (Forward 120)) in
        let found = move (ViCharSearch 1 (Backward 120)) in
        Comes nothing_bound blank kept (typed (44 ∷ [])) found kept }
    ensures killed_to_the_last { let kept = vi Command None (Some (Forward 120)) in
        let killed = kill (ViCharSearch 1 (Backward 120)) in
        let left = vi Command (Some killed) (Some (Forward 120)) in
        Comes nothing_bound blank kept (typed (100 ∷ 44 ∷ [])) killed left }
    ensures without_a_search { InCommandMode (typed (59 ∷ [])) noop commanding }
    ensures no_motion { InCommandMode (typed (100 ∷ 59 ∷ [])) unknown commanding }
{}

/// The last change done again by the dot, and what becomes the last change.
pub fn the_last_change()
    // 2 and the dot do the last change again, with 2 in the place of its count.
    ensures nothing { InCommandMode (typed (50 ∷ 46 ∷ [])) noop commanding }
    ensures killed { TwiceAgain (kill (ForwardChar 5)) (kill (ForwardChar 2)) }
    ensures kept { let left = vi Command (Some (kill (ForwardChar 5))) None in
        Comes nothing_bound blank left (typed (46 ∷ [])) (kill (ForwardChar 5)) left }
    ensures copied { TwiceAgain (vi_yank_to (ForwardWord 1 Start words.Vi))
        (vi_yank_to (ForwardWord 2 Start words.Vi)) }
    ensures yanked { TwiceAgain (yank 1 After) (yank 2 After) }
    ensures replaced { TwiceAgain (replace_char 1 120) (replace_char 2 120) }
    ensures without_count { TwiceAgain (indent WholeLine) (indent WholeLine) }
    // The text that was inserted last takes the place of what a replacement covers, and of a typed
    // character. What was typed over the line covers as much again as it has bytes, whatever the
    // count.
    ensures replaced_by_text { let text = 120 ∷ 121 ∷ 122 ∷ [] in TwiceAgainBehind text
        (replace (ForwardChar 1) None) (replace (ForwardChar 2) (Some text)) }
    ensures typed_over { let text = 120 ∷ 121 ∷ 122 ∷ [] in TwiceAgainBehind text
        (replace (ForwardChar 0) None) (replace (ForwardChar 3) (Some text)) }
    ensures typed { let text = 120 ∷ 121 ∷ [] in
        TwiceAgainBehind text (self_insert 1 120) (insert 2 text) }
    ensures untyped { TwiceAgain (self_insert 1 120) (self_insert 2 120) }
    ensures command_mode { let last = Some (kill WholeLine) in
        becomes_change Command last (self_insert 1 120) ≡ true }
    ensures copies { becomes_change Command None (vi_yank_to WholeLine) ≡ true }
    ensures moves { becomes_change Command None (move BeginningOfLine) ≡ false }
    ensures types { becomes_change Insert None (self_insert 1 120) ≡ true }
    ensures typed_on { let last = Some (self_insert 1 120) in
        becomes_change Insert last (self_insert 1 121) ≡ false }
    ensures behind_a_replacement { let last = Some (replace WholeLine None) in
        becomes_change Insert last (self_insert 1 120) ≡ false }
    ensures behind_a_kill { let last = Some (kill WholeLine) in
        becomes_change Insert last (self_insert 1 120) ≡ true }
    ensures kills { let last = Some (replace WholeLine None) in
        becomes_change Insert last (kill (BackwardChar 1)) ≡ true }
    ensures types_over { becomes_change Replace None (overwrite 120) ≡ false }
{}

/// Keys with Alt in insert mode, and groups of insertions.
pub fn insert_mode()
    // After Alt in insert mode a phrase of command mode is read, in which 0 is no count.
    ensures zero { InInsertMode (with_alt 48 ∷ []) (move BeginningOfLine) commanding }
    ensures killed { let killed = kill (ForwardWord 1 Start words.Vi) in
        InInsertMode (with_alt 100 ∷ typed (119 ∷ [])) killed (vi Command (Some killed) None) }
    ensures counted { let killed = kill (ForwardChar 12) in
        InInsertMode (with_alt 49 ∷ typed (50 ∷ 120 ∷ [])) killed (vi Command (Some killed) None) }
    // There the binding of the plain key counts, and its command becomes the last change by the
    // rule of insert mode. A binding of the key with Alt comes first, and the mode stays.
    ensures plain_key { let killed = kill (BackwardChar 2) in
        let keymap = only_bound (keys (plain 119 ∷ [])) (Some killed) in
        Comes keymap blank inserting (with_alt 119 ∷ []) killed (vi Command (Some killed) None) }
    ensures in_command_mode { let killed = kill (BackwardChar 2) in
        let keymap = only_bound (keys (plain 119 ∷ [])) (Some killed) in
        Comes keymap blank commanding (typed (119 ∷ [])) killed commanding }
    ensures own_key { let killed = kill (BackwardChar 2) in
        let keymap = only_bound (keys (with_alt 119 ∷ [])) (Some killed) in
        Comes keymap blank inserting (with_alt 119 ∷ []) killed inserting }
    ensures begun { LeavesDraft nothing_bound blank commanding (typed (105 ∷ [])) (in_group blank) }
    ensures ended { let draft = in_group blank in
        LeavesDraft nothing_bound draft inserting (event Esc NONE ∷ []) (out_of_group draft) }
    ensures by_alt { let draft = in_group blank in LeavesDraft nothing_bound draft inserting
        (with_alt 105 ∷ []) (in_group (out_of_group draft)) }
{}

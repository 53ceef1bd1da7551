//! The tables of keys, as they are shown to a person.

/// The keys of both edit modes.
const COMMON: &str = "\
Left Right Home End     a character back, on; to the start, to the end
Up Down                 a row up, down; from the first row to older lines, from the last to newer ones
Enter C-j C-m           submits the line, or breaks it while a bracket is open
Delete                  deletes the character at the cursor
Right at the end        takes the hint that is shown
Tab S-Tab               completes a word, or the name of a file behind :load; goes through the candidates, or lists them
C-r C-s                 searches older lines, newer ones
C-c                     drops the line
C-d on an empty line    ends the console
:load FILE              answers the lines of a file
C-u C-w                 kills to the start, to the last blank
C-y                     puts back what was killed last
C-t                     changes two characters round
C-_                     takes the last change back
";

/// The keys of Emacs.
const EMACS: &str = "\
C-a C-e C-b C-f         to the start, to the end; a character back, on
M-b M-f                 a word back, on
C-h C-d                 deletes the character before, at the cursor
C-k M-d M-Backspace     kills to the end, a word on, a word back
M-y                     behind C-y: what was killed before
M-c M-l M-u             a word with a capital, in small letters, in capitals
M-t                     changes two words round
C-p C-n M-< M->         the older, the newer, the oldest line, the one that is written
C-] M-C-] and a key     to that character on, back
C-g Esc                 does nothing with what was begun
C-l                     clears the screen
M-0 .. M-9 M--          a count for the next key
C-x C-u                 takes the last change back";

/// The keys of Vi.
const VI: &str = "\
Esc                     from typing to commands
i a I A                 types before, behind the cursor; at the start, at the end
h l 0 ^ $               a character back, on; to the start, the first letter, the end
w b e W B E             a word on, back, to its end; the same by blanks
f F t T and a key ; ,   to that character on, back, before it; again, the other way
%                       to the bracket that matches
d c y with a motion     deletes, changes, copies; dd cc yy the whole line
D C x X s S             to the end; a character at, before the cursor; changes a character, the line
p P                     puts behind, before the cursor
r and a key, R          replaces a character; types over
> < with a motion       indents, dedents
u .                     takes the last change back; does the last change again
j k                     a row down or a newer line, up or an older one
1 .. 9                  a count for the next key";

/// Returns the lines that list the keys, in two parts.
pub(crate) fn key_tables(vi: bool) -> (&'static str, &'static str) {
    if vi { (COMMON, VI) } else { (COMMON, EMACS) }
}

//! Laws of the definitions that the contracts cite. No call of the editor is made here.
ghost use Rattle.line_session.specs.OneChange.{CompletionIsOneChange, CompletionKeepsTheRest, GivingUpRestores};
ghost use Rattle.line_session.specs.OneSearch.{GivingUpSearchRestores, SearchIsOneChange};
ghost use Rattle.line_session.specs.Pieces.{EndsOnce, EndsTheSame};
ghost use Rattle.line_session.specs.SessionIsRun.{SessionIsRun};

/// A line that ends has the same end however its items arrive, where no binding looks at the hint:
/// in pieces, or all at once by as many calls as it takes, since a call stops where the program is
/// suspended.
pub fn a_line_in_pieces_ends_the_same()
    ensures { EndsTheSame }
{}

/// From one start at which commands are read a line has only one end, where the helper offers no
/// candidates: what is left is the same, and so is how it ends.
pub fn a_line_ends_once()
    ensures { EndsOnce }
{}

/// However a completion was gone through, it is one change: taking that back restores the line from
/// before, with its cursor, where the helper puts candidates in place of what stands from the start
/// to the cursor.
pub fn a_completion_is_one_change()
    ensures { CompletionIsOneChange }
{}

/// Giving up the candidates of a completion restores the line from before, with its cursor, where
/// the helper puts candidates in place of what stands from the start to the cursor.
pub fn giving_up_restores()
    ensures { GivingUpRestores }
{}

/// A candidate that is put in leaves the text before the completed part and after the cursor, where
/// the helper puts candidates in place of what stands from the start to the cursor.
pub fn a_completion_keeps_the_rest()
    ensures { CompletionKeepsTheRest }
{}

/// However a search went on, it is one change: taking that back restores the text from before.
pub fn a_search_is_one_change()
    ensures { SearchIsOneChange }
{}

/// Giving up a search restores the line from before, with its cursor, as the line of the history
/// that it was.
pub fn giving_a_search_up_restores()
    ensures { GivingUpSearchRestores }
{}

/// From where commands are read, with none of those among them that are left to the program and no
/// item taken by itself (as a text that is pasted between two commands is), what a line comes to,
/// in a call or over several, is a run of the abstract editor: turns that proceed and one that does
/// not, or items that run out. The one has an end just where the other has it.
pub fn a_session_is_a_run()
    ensures { SessionIsRun }
{}

//! Laws of the definitions that the contracts cite. No call is made here.
ghost use Rattle.line_input.specs.Laws.{ComparesEvents, DrawingStays, EachKeyBegins, IsPrefixFree};

/// Input events that the map takes for the same are equal, and equal ones are the same.
pub fn events_are_compared_by_value()
    ensures { ComparesEvents }
{}

/// No phrase is a proper beginning of another, and one list of items has one command.
pub fn phrases_are_prefix_free()
    ensures { IsPrefixFree }
{}

/// Each key begins a phrase, in each mode and whatever is bound, and so do the keys of a count with
/// the key that ends it: with some items after them, or with none, they lead to a command.
pub fn each_key_begins_a_phrase()
    ensures { EachKeyBegins }
{}

/// Where something is drawn of items that are no phrase yet, as of the keys of a count, something
/// is drawn of each phrase that is read of them and of items after them, from the draft which they
/// left, if the binding of the first key looks at no hint.
pub fn what_a_cut_drew_is_drawn_again()
    ensures { DrawingStays }
{}

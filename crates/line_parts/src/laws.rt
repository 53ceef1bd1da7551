//! Laws over the definitions that the contracts cite.
ghost use Rattle.line_buffer.specs.Comparison.{IsSameness, IsSamenessOf};
ghost use Rattle.line_parts.specs.BracketLaws.{MatchIsMutual, StrikingOutGivesAVerdict, VerdictIsOne};
ghost use Rattle.line_parts.specs.CompletionLaws.{CommonStartIsOne, EscapedIsUnescaped, EscapedIsWord, OneQuoteIsOpen, OrderIsOne};
ghost use Rattle.line_parts.specs.History.{found_of};
ghost use Rattle.line_parts.specs.HistoryLaws.{AddingKeepsTheLast, FoundIsNearest, NoneIsNowhere};
ghost use Rattle.line_parts.specs.HistoryTextLaws.{SavedIsLoaded, SavedIsRead, SavedV3IsLoaded, SavedV3IsRead, TextSaysOne};

use crate::completion::Quote;
use crate::escaped_line::Escapes;
use crate::highlight::CmdKind;
use crate::history::{SearchDirection, SearchResult};

/// A history without lines, to which lines are added one by one, then holds the last of those that
/// it took, as many as its limit.
#[tactic(auto, using(crate::proofs::HistoryLawLemmas::adding_keeps_the_last))]
pub fn adding_keeps_the_last()
    ensures { AddingKeepsTheLast }
{}

/// What a search in a history finds is a line on the side that was asked for, with the place in it,
/// and no line on that side that is nearer has one.
pub fn found_is_nearest()
    ensures { FoundIsNearest }
{}

/// Where a search for some text from a line of a history finds nothing, no line on that
/// side has a place.
#[tactic(auto, using(crate::proofs::HistoryLawLemmas::none_is_nowhere))]
pub fn none_is_nowhere()
    ensures { NoneIsNowhere }
{}

/// Reading a text that `save_to` wrote, or one with an appended text after it, returns the lines of
/// both in order but the empty ones, where none of them ends in a carriage return.
pub fn saved_is_read()
    ensures { SavedIsRead }
{}

/// Loading a text that `save_to` wrote, or one with an appended text after it, leaves a history as
/// adding the lines of both in order does, where none of them ends in a carriage return.
pub fn saved_is_loaded()
    ensures { SavedIsLoaded }
{}

/// Reading a text that `save_v3_to` wrote, or one with an appended text after it, returns the lines
/// of both in order but the empty ones, whatever characters they have.
pub fn saved_v3_is_read()
    ensures { SavedV3IsRead }
{}

/// Loading a text that `save_v3_to` wrote, or one with an appended text after it, leaves a history
/// as adding the lines of both in order does, whatever characters they have.
pub fn saved_v3_is_loaded()
    ensures { SavedV3IsLoaded }
{}

/// A text of a history has one header or none, and says one list of lines.
pub fn text_says_one()
    ensures { TextSaysOne }
{}

/// The brackets of a text have one validation result: that of the brackets that are left when pairs
/// that stand next to each other are struck out.
pub fn brackets_have_one_verdict()
    ensures some { StrikingOutGivesAVerdict }
    ensures one { VerdictIsOne }
{}

/// Where a bracket has a match, the match of that one is the first.
pub fn brackets_match_each_other()
    ensures { MatchIsMutual }
{}

/// Escaping a text and then unescaping it restores the text, where the escape character is one of
/// the characters that are escaped, and the text stands in no single quotes.
#[tactic(auto, using(crate::proofs::WordLemmas::text_given_back))]
pub fn escaped_is_unescaped()
    ensures { EscapedIsUnescaped }
{}

/// An escaped text after a break character is the last word, where the escape character does not
/// stand before that character.
#[tactic(auto, using(crate::proofs::WordStartLemmas::escaped_word))]
pub fn escaped_is_word()
    ensures { EscapedIsWord }
{}

/// Texts have one common start: the longest text of whole characters with which all of them begin.
#[tactic(auto, using(crate::proofs::PrefixLemmas::one_common))]
pub fn common_start_is_one()
    ensures { CommonStartIsOne }
{}

/// At most one quote of a text stands open.
#[tactic(auto, using(crate::proofs::QuoteLemmas::one_quote_is_open))]
pub fn one_quote_is_open()
    ensures { OneQuoteIsOpen }
{}

/// Candidates can be put in order, and in one way: those that show the same text stay in the order
/// that they had.
pub fn candidates_have_one_order()
    ensures { OrderIsOne }
{}

/// Values are equal just where they are the same: lines that were found where the line, its index
/// and the place in it are.
pub fn equal_is_same()
    ensures found { IsSamenessOf found_of ⟦<SearchResult<'static> as PartialEq>⟧.eq }
    ensures direction { IsSameness ⟦<SearchDirection as PartialEq>⟧.eq }
    ensures kind { IsSameness ⟦<CmdKind as PartialEq>⟧.eq }
    ensures quote { IsSameness ⟦<Quote as PartialEq>⟧.eq }
    ensures escapes { IsSameness ⟦<Escapes as PartialEq>⟧.eq }
{}

//! Those whom a line editor asks, each through its trait or through the context of the editor.

use super::{FAULTS, broken_history, plain, told};
use crate::report::shown;
use line_buffer::LineBuffer;
use line_config::{CompletionType, Result};
use line_parts::{
    CmdKind, Context, Helper, HelperContext, Highlighter, Hint, Hinter, History, HistoryHinter,
    MatchingBracketHighlighter, MatchingBracketValidator, MemHistory, SearchDirection,
    ValidationContext, ValidationResult, Validator,
};
use std::alloc::Global;
use tests_parties::advisor::Advisor;
use tests_parties::fault::USUAL;
use tests_parties::shelf::{Call, Failing, Shelf};
use tests_parties::source::Source;

/// The highlighter, the history and the helper of a case.
pub struct Parties {
    highlighter: MatchingBracketHighlighter,
    history: Shelf,
    advisor: Advisor,
}

impl Drop for Parties {
    fn drop(self) {
        let Parties {
            highlighter: _,
            history: _,
            advisor: _,
        } = self;
    }
}

/// The texts of a helper.
const TEXTS: &[(&str, &'static str)] = &[("!", "!"), ("no", "no"), ("yes", "yes"), ("empty", "")];

/// Yes and no.
const BOOLS: &[(&str, bool)] = &[("true", true), ("false", false)];

/// The kinds by which a highlighter is told of a line.
const KINDS: &[(&str, CmdKind)] = &[
    ("MoveCursor", CmdKind::MoveCursor),
    ("Other", CmdKind::Other),
    ("ForcedRefresh", CmdKind::ForcedRefresh),
];

impl Parties {
    /// A highlighter that remembers nothing, a history without lines, and a helper without hints.
    pub fn new(alloc: Global) -> Parties {
        Parties {
            highlighter: MatchingBracketHighlighter::new(),
            history: Shelf::new(alloc, 0),
            advisor: Advisor::new(None, (true, true, None), None),
        }
    }

    /// What a call of the highlighter of brackets gives.
    pub fn lights(&mut self, alloc: Global, source: &mut Source<'_>) -> Result<Option<String>> {
        let call = source.word().unwrap_or("");
        let (text, pos) = (source.text().unwrap_or(""), source.number());
        let kind = source.named(KINDS).unwrap_or(CmdKind::MoveCursor);
        match call {
            "new" => self.highlighter = MatchingBracketHighlighter::new(),
            "default" => self.highlighter = MatchingBracketHighlighter::default(),
            "show" => return shown(alloc, self.highlighter.highlight(alloc, text, pos)?),
            "tell" => return shown(alloc, self.highlighter.highlight_char(text, pos, kind)),
            _ => return Ok(None),
        }
        shown(alloc, ())
    }

    /// What a call of the others gives.
    pub fn says(&mut self, alloc: Global, source: &mut Source<'_>) -> Result<Option<String>> {
        let history = &self.history;
        match source.word().unwrap_or("") {
            "hint" => hints(alloc, &HistoryHinter::new(), history, source),
            "default_hint" => hints(alloc, &HistoryHinter::default(), history, source),
            "unit_hint" => hints(alloc, &(), history, source),
            "advisor_hint" => hints(alloc, &self.advisor, history, source),
            "verdict" => judges(alloc, &MatchingBracketValidator::new(), source),
            "default_verdict" => judges(alloc, &MatchingBracketValidator::default(), source),
            "unit_verdict" => judges(alloc, &(), source),
            "advisor_verdict" => judges(alloc, &self.advisor, source),
            "nobody" => hands(alloc, None::<&mut ()>, source),
            "unit" => hands(alloc, Some(&mut ()), source),
            "advisor" => hands(alloc, Some(&mut self.advisor), source),
            call => self.sets(alloc, call, source),
        }
    }

    /// What a call gives that sets a party or looks at it.
    fn sets(
        &mut self,
        alloc: Global,
        call: &str,
        source: &mut Source<'_>,
    ) -> Result<Option<String>> {
        match call {
            "add" => shown(alloc, self.history.add(plain(alloc, source)?.as_str())?),
            "get" => match told(self.history.get(0, SearchDirection::Reverse))? {
                Ok(found) => shown(alloc, found),
                Err(fault) => shown(alloc, fault),
            },
            "kinds" => shown(alloc, self.advisor.kinds()),
            "lit" => {
                let (text, pos) = (source.text().unwrap_or(""), source.number());
                let is_lit = self.advisor.highlight_char(text, pos, CmdKind::MoveCursor);
                shown(alloc, is_lit)
            }
            "unit_shows" => shows(alloc, source),
            "empty" => {
                let history = MemHistory::new(alloc);
                let mut ctx = Context::new(&history);
                ctx.set_history_index(0);
                let lens = (history.len(), ctx.history().len());
                shown(alloc, (lens, history.is_empty(), ctx.history_index()))
            }
            "helper" => {
                let hint = source.named(TEXTS);
                let whole = source.named(BOOLS).unwrap_or(false);
                let valid = source.named(BOOLS).unwrap_or(false);
                let verdict = (whole, valid, source.named(TEXTS));
                self.advisor = Advisor::new(hint, verdict, source.named(KINDS));
                shown(alloc, ())
            }
            _ => self.fails(alloc, call, source),
        }
    }

    /// Sets which call of a party fails, and how.
    fn fails(
        &mut self,
        alloc: Global,
        call: &str,
        source: &mut Source<'_>,
    ) -> Result<Option<String>> {
        let fault = source.named(FAULTS).unwrap_or(USUAL);
        let number = source.number();
        let failing = match call {
            "fails_only" => Failing::Only(Call::StartsWith(number)),
            "fails_but" => Failing::AllBut(Call::StartsWith(number)),
            "fails_all" => Failing::All,
            "fails_at" => {
                self.history.fail_by(number as u64, fault);
                return shown(alloc, ());
            }
            "helper_fails" => {
                self.advisor.fail_by(number as u64, fault);
                return shown(alloc, ());
            }
            _ => return Ok(None),
        };
        self.history.failing = Some((failing, fault));
        shown(alloc, ())
    }
}

/// The hint of a hinter for a text, a cursor, and an index in the history, if it is one.
fn hints<H: Hinter>(
    alloc: Global,
    hinter: &H,
    history: &Shelf,
    source: &mut Source<'_>,
) -> Result<Option<String>> {
    let text = plain(alloc, source)?;
    let (pos, index) = (source.number(), source.number());
    let mut ctx = Context::new(history);
    if index < history.len() {
        ctx.set_history_index(index);
    }
    hinted(alloc, hinter.hint(alloc, &text, pos, &ctx))
}

/// What a hint displays, and what it completes the line with.
fn hinted<T: Hint + Drop>(alloc: Global, outcome: Result<Option<T>>) -> Result<Option<String>> {
    match told(outcome)? {
        Ok(Some(hint)) => shown(alloc, (hint.display(), hint.completion())),
        Ok(None) => shown(alloc, None::<&str>),
        Err(fault) => shown(alloc, fault),
    }
}

/// The validation result for a text, that text, and whether it is asked for while it is typed.
fn judges<V: Validator>(
    alloc: Global,
    validator: &V,
    source: &mut Source<'_>,
) -> Result<Option<String>> {
    let text = plain(alloc, source)?;
    let context = ValidationContext::new(&text);
    let outcome = validator.validate(alloc, &context);
    let verdict = judged(alloc, outcome)?.unwrap_or(String::new(alloc));
    let while_typing = validator.validate_while_typing();
    let input = context.input();
    Ok(Some(format!(in alloc; "{verdict} {input:?} {while_typing}")?))
}

/// The name of a validation result, and its message.
fn judged(alloc: Global, outcome: Result<ValidationResult>) -> Result<Option<String>> {
    match told(outcome)? {
        Ok(ValidationResult::Incomplete) => shown(alloc, ("incomplete", None::<&str>)),
        Ok(ValidationResult::Invalid(message)) => shown(alloc, ("invalid", message)),
        Ok(ValidationResult::Valid(message)) => shown(alloc, ("valid", message)),
        Err(fault) => shown(alloc, fault),
    }
}

/// The hint or the validation result that an editor gets of a helper, or of none, for a text with
/// the cursor at its end. The history, which is not asked, fails in each call.
fn hands<H: Helper>(
    alloc: Global,
    helper: Option<&mut H>,
    source: &mut Source<'_>,
) -> Result<Option<String>> {
    let call = source.word().unwrap_or("");
    let owned = plain(alloc, source)?;
    let text = owned.as_str();
    if !text.is_char_boundary(text.len()) {
        return Ok(None);
    }
    let line = LineBuffer::init(alloc, text, text.len())?;
    let history = broken_history(alloc);
    let context = HelperContext::new(helper, Context::new(&history));
    match call {
        "hint" => hinted(alloc, context.hint(alloc, &line)),
        "verdict" => judged(alloc, context.validate(alloc, &line)),
        _ => Ok(None),
    }
}

/// Whether the unit draws a text after an edit and after a move, and how it highlights it.
fn shows(alloc: Global, source: &mut Source<'_>) -> Result<Option<String>> {
    let text = source.text().unwrap_or("");
    let unit = &mut ();
    let edited = unit.highlight_char(text, 0, CmdKind::Other);
    let moved = unit.highlight_char(text, text.len(), CmdKind::MoveCursor);
    let candidate = unit.highlight_candidate(alloc, text, CompletionType::List);
    let line = unit.highlight(alloc, text, 0);
    let prompt = unit.highlight_prompt(alloc, text, true);
    let hint = unit.highlight_hint(alloc, text);
    shown(alloc, (edited, moved, candidate, line, prompt, hint))
}

//! Words of a text, found cluster by cluster.
ghost use Rattle.line_buffer.specs.Offset.{IsOffset, IsOffsetIfAny};
ghost use Rattle.std.specs.Prelude.{◌≡◌, ◌<◌, ◌-◌, length, drop, option_map, reverse, unwrap_or, IfSome, IsCharBoundary};
ghost use Rattle.line_buffer.specs.declared.movement.At.TheVariants as At;
ghost use Rattle.std.specs.List.{concat};
ghost use Rattle.line_buffer.specs.Cluster.{clusters};
ghost use Rattle.line_buffer.specs.Word.{begins_word, bytes_to, edges, ends_word, is_blank, is_made_of, is_vi_letter, kind_of, kinds_of, nth, past_the_words, word_edge, edge_before, edge_behind, edge_behind_first, edge_between, edge_bytes};
ghost use Rattle.unicode_segmentation.specs.Iter.{graphemes_left};

use crate::clusters::{is_alphanumeric, is_alphanumeric_text, is_one_cluster, last_start};
use crate::movement::{At, RepeatCount, Word};
use unicode_segmentation::{Graphemes, UnicodeSegmentation};

/// What a cluster is to words.
#[derive(Clone, Copy, PartialEq, Eq)]
pub(crate) enum Kind {
    /// It stands between words.
    Gap,
    /// It is part of a word.
    Inside,
    /// It is part of a word of marks.
    Mark,
}

/// Which end of a word is looked for.
#[derive(Clone, Copy)]
pub(crate) enum Edge {
    Begin,
    End,
}

impl Edge {
    /// Returns whether this edge of a word lies between two clusters of these kinds.
    fn is_between(self, old: Kind, new: Kind) -> bool
        ensures { result ≡ edge_between self old new }
    {
        match self {
            Edge::Begin => begins_word(old, new),
            Edge::End => begins_word(new, old),
        }
    }

    /// Returns whether this edge of a word lies between a cluster and the one before it, if there
    /// is one.
    fn is_behind(self, old: Option<Kind>, new: Kind) -> bool
        ensures { result ≡ edge_behind (edge_between self) old new }
    {
        old.is_some_and(|old| self.is_between(old, new))
    }
}

/// Returns whether a word begins between two clusters of these kinds.
fn begins_word(old: Kind, new: Kind) -> bool
    ensures { result ≡ begins_word old new }
{
    new != Kind::Gap && old != new
}

/// What the cluster is to words of this sort.
fn kind_of(word: Word, cluster: &str) -> Kind
    ensures { result ≡ kind_of word cluster.now }
{
    match word {
        Word::Big if is_blank(cluster) => Kind::Gap,
        Word::Big => Kind::Inside,
        Word::Emacs if is_alphanumeric_text(cluster) => Kind::Inside,
        Word::Emacs => Kind::Gap,
        Word::Vi if is_blank(cluster) => Kind::Gap,
        Word::Vi if is_vi_text(cluster) => Kind::Inside,
        Word::Vi => Kind::Mark,
    }
}

/// Returns whether all characters of the cluster are white space.
fn is_blank(cluster: &str) -> bool
    ensures { result ≡ is_blank cluster.now }
{
    cluster.chars().all(char::is_whitespace)
}

/// Returns whether all characters of the cluster are alphanumeric or underscores.
fn is_vi_text(cluster: &str) -> bool
    ensures { result ≡ is_made_of is_vi_letter cluster.now }
{
    cluster.chars().all(|c| is_alphanumeric(c) || c == '_')
}

/// Returns the `n`-th edge of words inside the clusters that are left, counted from 1: where the
/// cluster before it begins, and where it lies, in bytes from where they begin.
pub(crate) fn nth_edge(
    clusters: Graphemes<'_>,
    word: Word,
    edge: Edge,
    n: RepeatCount,
) -> Option<(usize, usize)>
    requires { 0 < n }
    ensures { let left = graphemes_left clusters.entry in
        let places = edges (edge_between edge) (kinds_of word left) in
        result ≡ option_map (edge_bytes left) (nth places n) }
{
    let len = clusters.as_str().len();
    let mut rest = clusters;
    let mut left = n;
    let mut previous = None;
    let (mut before, mut place) = (0, 0);
    while let Some(cluster) = rest.next() {
        let kind = kind_of(word, cluster);
        if edge.is_behind(previous, kind) {
            if left == 1 {
                return Some((before, place));
            }
            left -= 1;
        }
        previous = Some(kind);
        before = place;
        place = len - rest.as_str().len();
    }
    None
}

/// Returns where the `n`-th word start inside the text lies, counted back from 1 at its end, in
/// bytes; 0 where there are fewer.
pub(crate) fn nth_start_back(text: &str, word: Word, n: RepeatCount) -> usize
    requires { 0 < n }
    ensures { let cs = clusters text.now in
        let places = reverse (edges begins_word (kinds_of word cs)) in
        IsOffset result text.now (bytes_to cs (unwrap_or (nth places n) 0)) }
{
    let mut rest = text.graphemes(true);
    let mut left = n;
    let mut next = None;
    let mut place = text.len();
    while let Some(cluster) = rest.next_back() {
        let kind = kind_of(word, cluster);
        if begins_before(kind, next) {
            if left == 1 {
                return place;
            }
            left -= 1;
        }
        next = Some(kind);
        place = rest.as_str().len();
    }
    0
}

/// Returns whether a word begins between a cluster and the one after it, if there is one.
fn begins_before(old: Kind, new: Option<Kind>) -> bool
    ensures { result ≡ edge_before begins_word old new }
{
    new.is_some_and(|new| begins_word(old, new))
}

/// Returns where the text's last cluster begins, for words other than Emacs', or the text's end for
/// those. `None` where the text is one cluster and the words are not Emacs'.
fn past_words(text: &str, word: Word) -> Option<usize>
    ensures { let cs = clusters text.now in
        IsOffsetIfAny result text.now (option_map (bytes_to cs) (past_the_words word (length cs))) }
{
    match word {
        Word::Emacs => Some(all_clusters_len(text)),
        Word::Big | Word::Vi if is_one_cluster(text) => None,
        Word::Big | Word::Vi => Some(last_start(text, 1)),
    }
}

/// Returns the place of a movement by `n` words from the text's start on, in bytes.
pub(crate) fn on_by_words(text: &str, at: At, word: Word, n: RepeatCount) -> Option<usize>
    requires count { 0 < n }
    requires some { 0 < length text.now }
    ensures { let cs = clusters text.now in
        IsOffsetIfAny result text.now (option_map (bytes_to cs) (word_edge at word cs n)) }
{
    match at {
        At::Start => match nth_edge(text.graphemes(true), word, Edge::Begin, n) {
            Some((_, start)) => Some(start),
            None => past_words(text, word),
        },
        At::BeforeEnd => before_end(text, word, n),
        At::AfterEnd => match nth_edge(text.graphemes(true), word, Edge::End, n) {
            Some((_, end)) => Some(end),
            None => Some(all_clusters_len(text)),
        },
    }
}

/// Returns where the `n`-th word after the text's first cluster has its last cluster, or for Emacs'
/// words ends.
fn before_end(text: &str, word: Word, n: RepeatCount) -> Option<usize>
    requires count { 0 < n }
    requires some { 0 < length text.now }
    ensures { let cs = clusters text.now in
        let edge = word_edge At.BeforeEnd word cs n in
        IsOffsetIfAny result text.now (option_map (bytes_to cs) edge) }
{
    match (nth_end_behind(text, word, n), word) {
        (Some((_, end)), Word::Emacs) => Some(end),
        (Some((last, _)), Word::Big | Word::Vi) => Some(last),
        (None, _) => past_words(text, word),
    }
}

/// Returns where the last cluster of the `n`-th word after the text's first cluster begins, and
/// where it ends.
fn nth_end_behind(text: &str, word: Word, n: RepeatCount) -> Option<(usize, usize)>
    requires { 0 < n }
    ensures places { let cs = clusters text.now in
        let places = edges ends_word (kinds_of word (drop 1 cs)) in
        result ≡ option_map (edge_behind_first cs) (nth places n) }
    ensures start { IfSome result (λ r. IsCharBoundary text.now r.0) }
    ensures end { IfSome result (λ r. IsCharBoundary text.now r.1) }
{
    let mut rest = text.graphemes(true);
    rest.next()?;
    let start = text.len() - rest.as_str().len();
    let (last, end) = nth_edge(rest, word, Edge::End, n)?;
    Some((start + last, start + end))
}

/// Returns the length of the text.
fn all_clusters_len(text: &str) -> usize
    ensures len { result ≡ bytes_to (clusters text.now) (length (clusters text.now)) }
    ensures whole { result ≡ length (concat (clusters text.now)) }
    ensures boundary { IsCharBoundary text.now result }
{
    text.len()
}

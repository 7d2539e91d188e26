// The reading of a line.
ghost use Rattle.std.specs.Prelude.{◌≡◌, ◌↔◌, ℕ, ◌<◌, ◌≤◌, [], length, IsTrue, MatchOption, slice_index, true, false};
ghost use Rattle.words.specs.Figures.{Reads, texts};
ghost use Rattle.orders.specs.Lines.{Blank, Inner, Splits, Next};
ghost use Rattle.orders.specs.Meanings.{LineMeans, LinesSplit, OneMeaning};

use crate::forms::statement;
use crate::statement::Statement;
use words::{Fault, Limit};

// What begins a comment.
const COMMENT: u8 = b'#';

// One more word than the longest statement has, so that a longer line is seen to be one.
const MAX_WORDS: usize = 8;

// Whether the byte is a blank.
fn is_blank(b: u8) -> bool
    ensures { IsTrue result ↔ (Blank b) }
{
    matches!(b, b' ' | b'\t' | b'\r')
}

// Whether the byte may stand in a word.
fn is_inner(b: u8) -> bool
    ensures { IsTrue result ↔ (Inner b) }
{
    b != COMMENT && !is_blank(b)
}

// How many bytes the line begins with that are of a kind.
fn run_len<F: Fn(u8) -> bool>(line: &[u8], is_of_kind: F) -> usize
    requires { F.IsAlwaysCallable is_of_kind }
    ensures within { result ≤ length line.now }
    ensures run { (k : ℕ) → k < result → F.post is_of_kind (slice_index line.now k) true }
    ensures stops { result < length line.now → F.post is_of_kind (slice_index line.now result) false }
{
    line.iter()
        .position(|b| !is_of_kind(*b))
        .unwrap_or(line.len())
}

// The first word of the line and what comes after it, or nothing where there is none.
fn next_word(line: &[u8]) -> Option<(&[u8], &[u8])>
    ensures { MatchOption result (Splits line.now []) (λ p. Next line.now p.0.now p.1.now) }
{
    let from = &line[run_len(line, is_blank)..];
    match run_len(from, is_inner) {
        0 => None,
        len => Some(from.split_at(len)),
    }
}

// What the line says: its words mean the statement, and at a fault they mean none. `names` are the names of the places in
// order.
pub fn read<S: Limit>(line: &[u8], names: &[&[u8]]) -> Result<Statement<S::Value>, Fault>
    ensures { Reads result (LineMeans S.Limit.spells (texts names.now) line.now) }
{
    // An array and a count: the words are few and lent, and the proof rests on no crate for it.
    let mut words = [line; MAX_WORDS];
    let mut count = 0;
    let mut rest = line;
    while count < MAX_WORDS {
        let Some((word, after)) = next_word(rest) else {
            break;
        };
        words[count] = word;
        count += 1;
        rest = after;
    }
    statement::<S>(&words[..count], names)
}

// Every line has words, whatever its bytes are, and just one list of words.
pub fn lines_split()
    ensures { LinesSplit }
{}

// A line says one statement at most.
pub fn line_means_one<S: Limit>()
    ensures { OneMeaning S.Limit.spells }
{}

ghost use Rattle.std.specs.Prelude.{◌≡◌, ◌==◌, ◌+◌, ℕ, List, ◌∷◌, ◌<◌, ◌^◌, [], length, position, codes, decimal, Some, None, IfNone, IfSome, MatchOption, true};
ghost use Rattle.std.specs.List.{AllByRecursion};
ghost use Rattle.line_forms.specs.Forms.{is_tag};
ghost use Rattle.line_forms.specs.Words.{words};
ghost use Rattle.query_protocol.specs.Replies.{LineReply, reply_text, text};
ghost use Rattle.query_protocol.specs.Written.{has_no_feed, IsWritten};
ghost use Rattle.load_sums.specs.Sums.{IsSumOf, AddsReply, CanAdd, HaveSums};
ghost use Rattle.load_sums.specs.Lines.{IsFirstLine};

use line_forms::{next_word, number_of};

/// What the replies of a session add up to.
#[derive(Clone, Copy, Debug, PartialEq, Eq)]
pub struct Sums {
    /// The hits.
    pub hits: u64,
    /// The bounds that `cost` told.
    pub bound: u64,
    /// The postings read that `cost` told.
    pub reads: u64,
}

impl Sums {
    /// The sums of the replies that a text is, or None exactly where one of them is that there was no memory, or where a sum is above
    /// the greatest u64.
    pub fn of(replies: &[u8]) -> Option<Sums>
        ensures sums { (said : List LineReply) → replies.now ≡ text said →
            AllByRecursion IsWritten said → IfSome result (IsSumOf said) }
        ensures none { (said : List LineReply) → replies.now ≡ text said →
            AllByRecursion IsWritten said → IfNone result (¬ HaveSums said) }
    {
        query_protocol::lines_of_replies();
        let mut sums = Sums {
            hits: 0,
            bound: 0,
            reads: 0,
        };
        let mut rest = replies;
        while !rest.is_empty() {
            let (line, after) = first_line(rest)?;
            sums = sums.with(line)?;
            rest = after;
        }
        Some(sums)
    }

    // The sums with one reply more, or None exactly where it is that there was no memory, or where a sum would be above the greatest
    // u64.
    fn with(self, line: &[u8]) -> Option<Sums>
        ensures sums { (reply : LineReply) → IsWritten reply → line.now ≡ reply_text reply →
            IfSome result (AddsReply reply self) }
        ensures none { (reply : LineReply) → IsWritten reply → line.now ≡ reply_text reply →
            IfNone result (¬ CanAdd reply self) }
    {
        let (word, after) = next_word(line)?;
        if word == b"hit".as_slice() {
            return Some(Sums {
                hits: self.hits.checked_add(1)?,
                ..self
            });
        }
        if word == b"cost".as_slice() {
            let (reads, bound) = cost_in(after)?;
            return Some(Sums {
                reads: self.reads.checked_add(reads)?,
                bound: self.bound.checked_add(bound)?,
                ..self
            });
        }
        if word == b"nomem".as_slice() {
            return None;
        }
        Some(self)
    }
}

// The reads and the bound of a reply to `cost`, by what follows its first word: a tag, `reads`, a number, `bound` and a number.
fn cost_in(after: &[u8]) -> Option<(u64, u64)>
    ensures { (tag : List ℕ) (reads bound : ℕ) → reads < 2 ^ 64 → bound < 2 ^ 64 →
        words after.now ≡ tag ∷ codes "reads" ∷ decimal reads ∷ codes "bound" ∷ decimal bound ∷ [] →
        result ≡ Some (reads, bound) }
{
    let (_tag, after) = next_word(after)?;
    let (_reads, after) = next_word(after)?;
    let (reads, after) = next_word(after)?;
    let (_bound, after) = next_word(after)?;
    let (bound, _after) = next_word(after)?;
    Some((number_in(reads)?, number_in(bound)?))
}

// The number that a word is.
fn number_in(word: &[u8]) -> Option<u64>
    ensures { (number : ℕ) → number < 2 ^ 64 → word.now ≡ decimal number → result ≡ Some number }
{
    number_of(20, 0, u64::MAX, word)
}

// The first line of a text, without its line feed, and what follows it, or None exactly where it has no line feed.
fn first_line(text: &[u8]) -> Option<(&[u8], &[u8])>
    ensures { MatchOption result (position (λ byte. byte == 10) text.now ≡ None)
        (λ parts. IsFirstLine text.now parts.0.now parts.1.now) }
{
    let feed = feed_in(text)?;
    Some((&text[..feed], &text[feed + 1..]))
}

// The place of the first line feed.
fn feed_in(text: &[u8]) -> Option<usize>
    ensures value { result ≡ position (λ byte. byte == 10) text.now }
    ensures within { IfSome result (λ feed. feed < length text.now) }
{
    text.iter().position(|byte| *byte == b'\n')
}

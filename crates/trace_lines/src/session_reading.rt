//! What the words of a line on commits, or on openings, ask.

ghost use Rattle.std.specs.Prelude.{◌≡◌, ◌≤◌, Err, None, Some};
ghost use Rattle.gph_codes.specs.Allowed.{IsAllowed};
ghost use Rattle.hamming_model.specs.declared.limits.TheConstants.{WORDS_MOST};
ghost use Rattle.line_forms.specs.Words.{words};
ghost use Rattle.trace_lines.specs.SessionsAsked.{adding_asked, commit_asked, event_commit_of};
ghost use Rattle.trace_lines.specs.SessionsAsked.{deleting_asked, formless, open_asked, open_of};
ghost use Rattle.trace_lines.specs.EventForms.{who_form, commit_form, open_form};
ghost use Rattle.trace_lines.specs.EventForms.{one_word, two_words};
ghost use Rattle.trace_lines.specs.EventRequests.{AsksAs};
ghost use Rattle.trace_lines.specs.declared.event_word.OpenForm.TheVariants.{RangeForm, NearForm};

use crate::EventRequest;
use crate::event_word::{CommitForm, OpenForm};
use crate::faults::{of_word, other_number_of_words};
use crate::forms::{nearest_of, one_word, two_words, who_of};
use entry_log::Op;
use line_forms::{code_of, key_of, next_word, radius_of};
use query_protocol::Bad;

// The words after `commit`.
pub(crate) fn read_commit<const W: usize>(bits: u32, after: &[u8]) -> Result<EventRequest<W>, Bad>
    requires few_words { W ≤ WORDS_MOST }
    requires allowed { IsAllowed W bits }
    ensures { AsksAs W bits result (commit_asked bits (words after.now)) }
{
    let Some((who, after)) = next_word(after) else {
        return Err(other_number_of_words());
    };
    let Some((form, after)) = next_word(after) else {
        return Err(other_number_of_words());
    };
    match commit_form(form) {
        Some(CommitForm::AddForm) => read_adding(bits, who, after),
        Some(CommitForm::DelForm) => read_deleting(bits, who, after),
        None => Err(no_form_of_commit(bits, who, after)),
    }
}

// The form of a commit that a word names.
fn commit_form(word: &[u8]) -> Option<CommitForm>
    ensures { result ≡ commit_form word.now }
{
    if word == b"add".as_slice() {
        Some(CommitForm::AddForm)
    } else if word == b"del".as_slice() {
        Some(CommitForm::DelForm)
    } else {
        None
    }
}

// A session's commit that adds, by the words after its form.
fn read_adding<const W: usize>(bits: u32, who: &[u8], after: &[u8]) -> Result<EventRequest<W>, Bad>
    requires few_words { W ≤ WORDS_MOST }
    requires allowed { IsAllowed W bits }
    ensures { AsksAs W bits result
        (adding_asked bits (who_form who.now) (two_words (words after.now))) }
{
    let (key, code) = two_words(after)?;
    let Some(who) = who_of(who) else {
        return Err(of_word(2));
    };
    let Some(key) = key_of(key) else {
        return Err(of_word(4));
    };
    let Some(code) = code_of(bits, code) else {
        return Err(of_word(5));
    };
    let op = Op::Add { key, code };
    Ok(EventRequest::Commit { who, op })
}

// A session's commit that deletes, by the words after its form.
fn read_deleting<const W: usize>(
    bits: u32,
    who: &[u8],
    after: &[u8],
) -> Result<EventRequest<W>, Bad>
    ensures { AsksAs W bits result
        (deleting_asked (who_form who.now) (one_word (words after.now))) }
{
    let key = one_word(after)?;
    let Some(who) = who_of(who) else {
        return Err(of_word(2));
    };
    let Some(key) = key_of(key) else {
        return Err(of_word(4));
    };
    let op = Op::Delete { key };
    Ok(EventRequest::Commit { who, op })
}

// The fault of a commit whose third word names no form: it may have as many words as one of the forms.
fn no_form_of_commit(bits: u32, who: &[u8], after: &[u8]) -> Bad
    ensures { event_commit_of bits (who_form who.now) None (words after.now) ≡ Err result }
{
    if let Ok(_) = one_word(after) {
        return formless(who);
    }
    match two_words(after) {
        Ok(_) => formless(who),
        Err(fault) => fault,
    }
}

// The fault of a third word that names no form.
fn formless(who: &[u8]) -> Bad
    ensures { formless (who_form who.now) ≡ Err result }
{
    match who_of(who) {
        None => of_word(2),
        Some(_) => of_word(3),
    }
}

// The words after `open`.
pub(crate) fn read_open<const W: usize>(bits: u32, after: &[u8]) -> Result<EventRequest<W>, Bad>
    requires few_words { W ≤ WORDS_MOST }
    requires allowed { IsAllowed W bits }
    ensures { AsksAs W bits result (open_asked bits (words after.now)) }
{
    let Some((who, after)) = next_word(after) else {
        return Err(other_number_of_words());
    };
    let Some((form, after)) = next_word(after) else {
        return Err(other_number_of_words());
    };
    match open_form(form) {
        Some(OpenForm::RangeForm) => read_range(bits, who, after),
        Some(OpenForm::NearForm) => read_near(bits, who, after),
        None => Err(no_form_of_opening(bits, who, after)),
    }
}

// The form of an opening that a word names.
fn open_form(word: &[u8]) -> Option<OpenForm>
    ensures { result ≡ open_form word.now }
{
    if word == b"range".as_slice() {
        Some(OpenForm::RangeForm)
    } else if word == b"near".as_slice() {
        Some(OpenForm::NearForm)
    } else {
        None
    }
}

// A session's range query, by the words after its form.
fn read_range<const W: usize>(bits: u32, who: &[u8], after: &[u8]) -> Result<EventRequest<W>, Bad>
    requires few_words { W ≤ WORDS_MOST }
    requires allowed { IsAllowed W bits }
    ensures { AsksAs W bits result
        (open_of bits (who_form who.now) (Some RangeForm) (words after.now)) }
{
    let (tau, code) = two_words(after)?;
    let Some(who) = who_of(who) else {
        return Err(of_word(2));
    };
    let Some(tau) = radius_of(bits, tau) else {
        return Err(of_word(4));
    };
    let Some(code) = code_of(bits, code) else {
        return Err(of_word(5));
    };
    Ok(EventRequest::OpenRange { who, tau, code })
}

// A session's query for the nearest rows, by the words after its form.
fn read_near<const W: usize>(bits: u32, who: &[u8], after: &[u8]) -> Result<EventRequest<W>, Bad>
    requires few_words { W ≤ WORDS_MOST }
    requires allowed { IsAllowed W bits }
    ensures { AsksAs W bits result
        (open_of bits (who_form who.now) (Some NearForm) (words after.now)) }
{
    let (k, code) = two_words(after)?;
    let Some(who) = who_of(who) else {
        return Err(of_word(2));
    };
    let Some(k) = nearest_of(k) else {
        return Err(of_word(4));
    };
    let Some(code) = code_of(bits, code) else {
        return Err(of_word(5));
    };
    Ok(EventRequest::OpenNear { who, k, code })
}

// The fault of an opening whose third word names no form: it may have as many words as the forms.
fn no_form_of_opening(bits: u32, who: &[u8], after: &[u8]) -> Bad
    ensures { open_of bits (who_form who.now) None (words after.now) ≡ Err result }
{
    match two_words(after) {
        Ok(_) => formless(who),
        Err(fault) => fault,
    }
}

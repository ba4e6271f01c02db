//! What a seat does at the board's journal: it claims word 0, works on the journal in its slot, and brings it home.

ghost use Rattle.std.specs.Prelude.{◌≡◌, ◌≢◌, ◌+◌, [], length, IfOk, OnErr, IfSome, IfNone, Some, None};
ghost use Rattle.hamming_model.specs.History.{code_at, rows_of};
ghost use Rattle.hamming_model.specs.declared.limits.TheConstants.{SESSIONS_MOST};
ghost use Rattle.entry_log.specs.Entries.{kept_operation};
ghost use Rattle.commit_journal.specs.Journals.{Commits, entry_by, without_front};
ghost use Rattle.commit_journal.specs.Journals as journals;
ghost use Rattle.board_seats.specs.Told.{SeesAll, Takes};
ghost use Rattle.board_seats.specs.Views.{AmongFronts, note_of, settled_view, with_front, with_living, with_number};
ghost use Rattle.board_seats.specs.Visits.{HasJournal, IsFree, IsStoredFor, Visited};

use crate::cell::{close_in, commit_in, enter_in, front_of, look_up_in, open_in, said_of};
use crate::rule::{Claims, Closes, Draws, Finds, Looks, Meets, Notes, Opens, Place, Seen, Settles};
use commit_journal::{Decided, Front};
use entry_log::Op;
use gph_codes::Code;
use read_meter::NoMemory;
use std::sync::Wait;
use std::thread;
use versioned_shard::journals_keep_the_rule;

// Takes the journal, once it is at home.
fn claim<const W: usize, R: Wait>(rt: &R, place: &Place<W>, me: &mut Seen<W>) -> u64
    requires place { me.old.table_id ≡ place.now.table_id }
    requires table { HasJournal place.now.table_id }
    requires free { IsFree me.old.me }
    ensures table { me.new.table_id ≡ me.old.table_id }
    ensures seat { me.new.id ≡ me.old.id }
    ensures taken { Takes me.old.me result me.new.me }
{
    for _ in rt.forever() {
        let word = place.load::<Looks>(me, 0);
        if word % 2 == 0 {
            let found = place.compare_exchange::<Claims>(me, 0, word, word + 1);
            if found == word {
                return word;
            }
        }
        thread::yield_now();
    }
    unreachable!()
}

/// Decides on an operation of the seat's number, and appends its entry where that is added or deleted.
///
/// # Errors
///
/// `NoMemory` where there is none for one entry more; the journal is as before.
pub fn commit<const W: usize, R: Wait>(
    rt: &R,
    place: &Place<W>,
    me: &mut Seen<W>,
    who: u32,
    op: Op<W>,
) -> Result<Decided, NoMemory>
    requires place { me.old.table_id ≡ place.now.table_id }
    requires table { HasJournal place.now.table_id }
    requires free { IsFree me.old.me }
    requires number { me.old.me.0.number ≡ Some who }
    requires stored { IsStoredFor me.old.me.0 (kept_operation op) }
    ensures table { me.new.table_id ≡ me.old.table_id }
    ensures decided { IfOk result (λ decided. (visit : Visited settled_view me.old.me me.new.me)
        × Commits visit.old visit.new (entry_by who op.entry) decided) }
    ensures unchanged { OnErr result ((visit : Visited settled_view me.old.me me.new.me)
        × (visit.new ≡ visit.old)) }
{
    journals_keep_the_rule();
    let word = claim(rt, place, me);
    match commit_in(me.slot_mut(place, 0), who, op) {
        Ok(decided) => {
            place.store::<Settles>(me, 0, 2 * decided.position);
            Ok(decided)
        }
        Err(_) => {
            place.store::<Settles>(me, 0, word);
            Err(NoMemory)
        }
    }
}

/// The code of a key, none exactly where it has no row, and how many entries there are.
pub fn code_of<const W: usize, R: Wait>(
    rt: &R,
    place: &Place<W>,
    me: &mut Seen<W>,
    key: u64,
) -> (Option<Code<W>>, u64)
    requires place { me.old.table_id ≡ place.now.table_id }
    requires table { HasJournal place.now.table_id }
    requires free { IsFree me.old.me }
    ensures table { me.new.table_id ≡ me.old.table_id }
    ensures visited { (visit : Visited settled_view me.old.me me.new.me)
        × (visit.new ≡ visit.old) × (result.0 ≡ code_at (rows_of visit.new.history) key)
        × (result.1 ≡ length visit.new.history) }
{
    let word = claim(rt, place, me);
    let found = look_up_in(me.slot_mut(place, 0), key);
    place.store::<Settles>(me, 0, word);
    found
}

/// A front at the present length, of the seat's number.
///
/// # Errors
///
/// `NoMemory` where there is none for the front; the journal is as before.
pub fn open_front<const W: usize, R: Wait>(
    rt: &R,
    place: &Place<W>,
    me: &mut Seen<W>,
    who: u32,
) -> Result<Front<W>, NoMemory>
    requires place { me.old.table_id ≡ place.now.table_id }
    requires table { HasJournal place.now.table_id }
    requires free { IsFree me.old.me }
    requires number { me.old.me.0.number ≡ Some who }
    ensures table { me.new.table_id ≡ me.old.table_id }
    ensures opened { IfOk result (λ front.
        (visit : Visited (with_front front) me.old.me me.new.me)
        × journals.Opens visit.old visit.new who front) }
    ensures unchanged { OnErr result ((visit : Visited settled_view me.old.me me.new.me)
        × (visit.new ≡ visit.old)) }
{
    journals_keep_the_rule();
    let word = claim(rt, place, me);
    match open_in(me.slot_mut(place, 0), who) {
        Ok(front) => {
            let said = said_of(front);
            place.compare_exchange_with::<Opens>(me, 0, word + 1, word, &said);
            Ok(front_of(said))
        }
        Err(_) => {
            place.store::<Settles>(me, 0, word);
            Err(NoMemory)
        }
    }
}

/// Closes a front of this seat.
pub fn close_front<const W: usize, R: Wait>(
    rt: &R,
    place: &Place<W>,
    me: &mut Seen<W>,
    front: Front<W>,
)
    requires place { me.old.table_id ≡ place.now.table_id }
    requires table { HasJournal place.now.table_id }
    requires free { IsFree me.old.me }
    requires own { AmongFronts me.old.me.0.fronts front }
    ensures table { me.new.table_id ≡ me.old.table_id }
    ensures closed { (visit : Visited with_living me.old.me me.new.me)
        × (visit.new ≡ without_front visit.old front.entry.id) }
{
    journals_keep_the_rule();
    let word = claim(rt, place, me);
    close_in(me.slot_mut(place, 0), front);
    place.store::<Closes>(me, 0, word);
}

/// Draws the next number for a seat that has none. None exactly where all `SESSIONS_MOST` are out.
pub fn draw<const W: usize, R: Wait>(rt: &R, place: &Place<W>, me: &mut Seen<W>) -> Option<u32>
    requires place { me.old.table_id ≡ place.now.table_id }
    requires table { HasJournal place.now.table_id }
    requires free { IsFree me.old.me }
    requires number { me.old.me.0.number ≡ None }
    ensures table { me.new.table_id ≡ me.old.table_id }
    ensures drawn { IfSome result (λ number.
        (visit : Visited with_number me.old.me me.new.me)
        × (visit.new ≡ record visit.old { next = visit.old.next + 1 })
        × (number ≡ visit.old.next) × (number ≢ SESSIONS_MOST)) }
    ensures none { IfNone result ((visit : Visited settled_view me.old.me me.new.me)
        × (visit.new ≡ visit.old) × (visit.old.next ≡ SESSIONS_MOST)) }
{
    let word = claim(rt, place, me);
    match enter_in(me.slot_mut(place, 0)) {
        Some(number) => {
            place.store::<Draws>(me, 0, word);
            Some(number)
        }
        None => {
            place.store::<Settles>(me, 0, word);
            None
        }
    }
}

/// Takes in what another seat had seen.
pub fn meet<const W: usize>(place: &Place<W>, me: &mut Seen<W>, other: Seen<W>)
    requires place { me.old.table_id ≡ place.now.table_id }
    requires board { other.table_id ≡ place.now.table_id }
    requires table { HasJournal place.now.table_id }
    requires free { IsFree other.me }
    ensures table { me.new.table_id ≡ me.old.table_id }
    ensures met { SeesAll (record me.old.me.0 { met = other.entry.me.0.seen }, me.old.me.1) me.new.me }
{
    place.join_seat::<Notes>(me, other);
    place.load::<Meets>(me, 0);
}

/// Takes in what another seat had seen, and the next number as that has found it.
pub fn find<const W: usize>(place: &Place<W>, me: &mut Seen<W>, other: Seen<W>)
    requires place { me.old.table_id ≡ place.now.table_id }
    requires board { other.table_id ≡ place.now.table_id }
    requires table { HasJournal place.now.table_id }
    requires free { IsFree other.me }
    ensures table { me.new.table_id ≡ me.old.table_id }
    ensures met { SeesAll (
      record me.old.me.0 {
        met = other.entry.me.0.seen;
        next = other.entry.me.0.next;
      },
      me.old.me.1,
    ) me.new.me }
{
    place.join_seat::<Finds>(me, other);
    place.load::<Meets>(me, 0);
}

/// A seat with no number and no fronts, that has seen what this one has.
pub fn note<const W: usize>(place: &Place<W>, me: &mut Seen<W>) -> Seen<W>
    requires place { me.old.table_id ≡ place.now.table_id }
    requires table { HasJournal place.now.table_id }
    ensures table { me.new.table_id ≡ me.old.table_id }
    ensures same { me.new.me ≡ me.old.me }
    ensures board { result.table_id ≡ me.old.table_id }
    ensures note { result.me ≡ (note_of me.old.me.0, []) }
{
    place.split_seat::<Notes>(me)
}

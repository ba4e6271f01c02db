//! The journal.

ghost use Rattle.std.specs.Prelude.{◌≡◌, ◌↔◌, ◌+◌, ◌<◌, ◌≤◌, length, None, is_some, true};
ghost use Rattle.std.specs.Prelude.{IfNone, IfOk, IfSome, OnErr, OnOk, OnSome};
ghost use Rattle.hamming_model.specs.History.{Add, Delete, Fits, code_at, rows_of};
ghost use Rattle.hamming_model.specs.declared.limits.TheConstants.{ENTRIES_MOST, SESSIONS_MOST, WORDS_MOST};
ghost use Rattle.entry_log.specs.Entries.{kept_operation};
ghost use Rattle.commit_journal.specs.Journals.{Commits, IsJournal, IsLive, KeepsFronts, KnowsFront, Opens};
ghost use Rattle.commit_journal.specs.Journals.{empty_journal, entry_by, with_entry, without_front};

use crate::decided::Decided;
use crate::entries::Entries;
use crate::front::Front;
use crate::older::older_positions;
use entry_log::{Decision, Entry, Op, decide};
use gph_codes::Code;
use hamming_model::{SESSIONS_MOST, legal_histories_grow, rows_follow_the_history};
use read_meter::NoMemory;
use slab::Slab;
use std::alloc::Global;
use std::collections::BTreeMap;
use std::marker::Model;

/// The history of entries, the rows that they leave, the live fronts and the number of the next session.
#[derive(Drop)]
pub struct Journal<const W: usize> {
    alloc: Global,
    entries: Entries<W>,
    rows: BTreeMap<u64, Code<W>>,
    // session and position of each live front, by its number
    live: Slab<(u32, u64)>,
    next: u32,
    limit: u64,
}

impl<const W: usize> Model for Journal<W> {
    ghost use Rattle.commit_journal.specs.Journals.{JournalState, journal_code};
    ghost use Rattle.commit_journal.specs.Kept.{IsKeptJournal, journal_of};

    ghost Value = { JournalState };

    ghost coded = { journal_code };

    ghost view = { λ kept. journal_of kept.entries kept.live kept.next kept.limit };

    ghost invariant = { λ kept. IsKeptJournal W (journal_of kept.entries kept.live kept.next kept.limit) kept.rows.entries };
}

impl<const W: usize> Journal<W> {
    /// A journal with no entries, which may get as many as the limit.
    pub fn new(alloc: Global, limit: u64) -> Result<Journal<W>, NoMemory>
        requires few_words { W ≤ WORDS_MOST }
        requires limited { limit ≤ ENTRIES_MOST }
        ensures { IfOk result (λ journal. journal ≡ empty_journal limit) }
    {
        Journal::numbered_from(alloc, limit, 0)
    }

    /// The same, and the next session has a number of the caller's. Where that is `SESSIONS_MOST`, none is left.
    pub fn numbered_from(alloc: Global, limit: u64, next: u32) -> Result<Journal<W>, NoMemory>
        requires few_words { W ≤ WORDS_MOST }
        requires limited { limit ≤ ENTRIES_MOST }
        requires numbered { next ≤ SESSIONS_MOST }
        ensures { IfOk result (λ journal. journal ≡ record (empty_journal limit) { next = next }) }
    {
        legal_histories_grow();
        let entries = Entries::new(alloc)?;
        Ok(Journal {
            alloc,
            entries,
            rows: BTreeMap::new(alloc),
            live: Slab::new(alloc),
            next,
            limit,
        })
    }

    /// How many entries there are.
    pub fn length(&self) -> u64
        ensures length { result ≡ length self.now.history }
        ensures journal { IsJournal self.now }
    {
        self.entries.len()
    }

    /// Draws the number of the next session, from 0 on. None exactly where all `SESSIONS_MOST` are out.
    pub fn enter(&mut self) -> Option<u32>
        // A number is drawn.
        ensures number { IfSome result (λ number. number ≡ self.old.next) }
        ensures drawn { OnSome result (self.new ≡ record self.old { next = self.old.next + 1 }) }
        // None is left.
        ensures none { (result ≡ None) ↔ (self.old.next ≡ SESSIONS_MOST) }
        ensures unchanged { IfNone result (self.new ≡ self.old) }
        // What stays.
        ensures fronts { KeepsFronts self.old self.new }
    {
        if self.next == SESSIONS_MOST {
            return None;
        }
        let number = self.next;
        self.next += 1;
        Some(number)
    }

    /// The code of a key. None exactly where the key has no row.
    pub fn code_of(&self, key: u64) -> Option<Code<W>>
        ensures { result ≡ code_at (rows_of self.now.history) key }
    {
        self.rows.get(&key).copied()
    }

    /// Decides on an operation of a session, and appends its entry where it is added or deleted.
    ///
    /// # Errors
    ///
    /// `NoMemory` where there is none for one entry more; the journal is as before.
    pub fn commit(&mut self, who: u32, op: Op<W>) -> Result<Decided, NoMemory>
        ensures decided { IfOk result (λ decided.
            Commits self.old self.new (entry_by who op.entry) decided) }
        ensures unchanged { OnErr result (self.new ≡ self.old) }
        ensures fronts { KeepsFronts self.old self.new }
    {
        let entries = self.entries.len();
        let present = self.rows.contains_key(&op.key());
        let decision = decide(&op, present, entries, self.limit);
        match decision {
            Decision::Added | Decision::Deleted => {
                self.append(who, &op)?;
                Ok(Decided {
                    decision,
                    position: entries + 1,
                })
            }
            Decision::Taken | Decision::Absent | Decision::Full => Ok(Decided {
                decision,
                position: entries,
            }),
        }
    }

    // Appends an entry that fits.
    fn append(&mut self, who: u32, op: &Op<W>) -> Result<(), NoMemory>
        requires fits { Fits (rows_of self.old.history) (kept_operation op.now) }
        requires room { length self.old.history < self.old.limit }
        ensures added { OnOk result (self.new ≡ with_entry self.old (entry_by who op.now)) }
        ensures unchanged { OnErr result (self.new ≡ self.old) }
    {
        match *op {
            Op::Add { key, code } => self.append_addition(who, key, code),
            Op::Delete { key } => self.append_deletion(who, key),
        }
    }

    // Appends an entry that adds a row with a new key. The row goes in first, and out again where there is no memory for the
    // entry.
    fn append_addition(&mut self, who: u32, key: u64, code: Code<W>) -> Result<(), NoMemory>
        requires absent { code_at (rows_of self.old.history) key ≡ None }
        requires room { length self.old.history < self.old.limit }
        ensures added { OnOk result (self.new
            ≡ with_entry self.old (record { who = who; operation = Add key code.entry })) }
        ensures unchanged { OnErr result (self.new ≡ self.old) }
    {
        legal_histories_grow();
        rows_follow_the_history();
        self.rows.insert(key, code)?;
        let Ok(()) = self.entries.push(Entry {
            who,
            op: Op::Add { key, code },
        })
        else {
            let _row = self.rows.remove(&key);
            return Err(NoMemory);
        };
        Ok(())
    }

    // Appends an entry that deletes the row of a key. The entry goes in first: taking a row out needs no memory.
    fn append_deletion(&mut self, who: u32, key: u64) -> Result<(), NoMemory>
        requires present { is_some (code_at (rows_of self.old.history) key) ≡ true }
        requires room { length self.old.history < self.old.limit }
        ensures added { OnOk result (self.new
            ≡ with_entry self.old (record { who = who; operation = Delete key })) }
        ensures unchanged { OnErr result (self.new ≡ self.old) }
    {
        legal_histories_grow();
        rows_follow_the_history();
        self.entries.push(Entry {
            who,
            op: Op::Delete { key },
        })?;
        self.rows.remove(&key);
        Ok(())
    }

    /// Opens a front of a session at the present length.
    ///
    /// # Errors
    ///
    /// `NoMemory` where there is none for the front; the journal is as before.
    pub fn open_front(&mut self, who: u32) -> Result<Front<W>, NoMemory>
        // The front, which is live and known.
        ensures opened { IfOk result (λ front. Opens self.old self.new who front) }
        ensures live { IfOk result (λ front. IsLive self.new front) }
        ensures known { IfOk result (λ front. KnowsFront self.new front) }
        // What stays.
        ensures unchanged { OnErr result (self.new ≡ self.old) }
        ensures fronts { KeepsFronts self.old self.new }
    {
        let position = self.entries.len();
        let older = older_positions(self.alloc, &self.live, position)?;
        let entries = self.entries.copy()?;
        let id = self.live.insert((who, position))?;
        Ok(Front {
            id,
            who,
            older,
            entries,
        })
    }

    /// Closes a front.
    pub fn close_front(&mut self, front: Front<W>)
        requires { IsLive self.old front }
        ensures closed { self.new ≡ without_front self.old front.entry.id }
        ensures fronts { KeepsFronts self.old self.new }
    {
        self.live.try_remove(front.id());
    }
}

// A legal history and what has become of its sessions and readings.
ghost use Rattle.std.specs.Prelude.{◌≡◌, ◌+◌, ◌^◌, ◌<◌, ◌≤◌, ◌∷◌, ◌++◌, [], true, option_copied, slice_get, unwrap_or, vec_len, vec_capacity, IsOk, OnOk, OnErr};
ghost use Rattle.std.specs.Option.{option_and_then};
ghost use Rattle.history.specs.Legal.{may_follow, is_legal};
ghost use Rattle.history.specs.OwnEnd.{own_end};
ghost use Rattle.history.specs.Sessions.{chooses, commits, newest, begins, looks, session_count, reading_count, is_held, retained, is_unfinished, is_begun_by, is_pending, last_hooks, is_reading, is_looked_by, hooks_chosen, champions_chosen, reading_begun};
ghost use Rattle.history_laws.specs.EntryNumbers.{numbers_of, last_champions, reading, CommitThese};
ghost use Rattle.legal_history.specs.Recorded.{past_of, is_end, unfinished_after};

use crate::parts::Parts;
use history::{Entry, Point, Rules, Seen};
use ss_base::{ManifestId, Memory, Name, StreamName};
use std::alloc::Global;
use std::marker::Model;

/// The entries of a legal history, and of each session and reading what has become of it, so that no question walks
/// over the entries. Contracts see the rules and the entries, the oldest first. A session or a reader that has not
/// begun is answered as the history defines it: false, none, 0.
#[derive(Drop)]
pub struct LegalHistory {
    rules: Rules,
    entries: Vec<Entry>,
    parts: Parts,
    // How many sessions and readings are unfinished. There is room for an entry that ends each.
    unfinished: u32,
}

impl Model for LegalHistory {
    ghost use Rattle.legal_history.specs.Recorded.{Recorded};

    ghost Value = { Recorded };

    ghost use Rattle.legal_history.specs.Kept.{recorded_in, IsKept};

    ghost view = { recorded_in };

    ghost invariant = { IsKept };
}

impl LegalHistory {
    /// No entries yet. They will be kept on `alloc`.
    pub fn new(alloc: Global, rules: Rules) -> LegalHistory
        ensures { result ≡ record { rules = rules; entries = [] } }
    {
        LegalHistory {
            rules,
            entries: Vec::new(alloc),
            parts: Parts::new(alloc),
            unfinished: 0,
        }
    }

    /// The rules by which the entries are legal.
    pub fn rules(&self) -> Rules
        ensures { result ≡ self.now.rules }
    {
        self.rules
    }

    /// The entries, the oldest first.
    pub fn entries(&self) -> &[Entry]
        ensures entries { result.now ≡ self.now.entries }
        ensures legal { is_legal self.now.rules (past_of self.now) ≡ true }
    {
        &self.entries
    }

    /// How many sessions began. They have the numbers below this.
    pub fn session_count(&self) -> u32
        ensures { result ≡ session_count (past_of self.now) }
    {
        self.parts.sessions.len() as u32
    }

    /// How many readings began. They have the numbers below this.
    pub fn reading_count(&self) -> u32
        ensures { result ≡ reading_count (past_of self.now) }
    {
        self.parts.readings.len() as u32
    }

    /// Whether a session that is unfinished or whose stream is retained has the name.
    pub fn is_held(&self, name: &StreamName) -> bool
        ensures { result ≡ is_held name.now (past_of self.now) }
    {
        match self.parts.names.get(name) {
            Some(session) => self.parts.sessions.holds(session),
            None => false,
        }
    }

    /// The session whose stream is retained under the name.
    pub fn retained(&self, name: &StreamName) -> Option<u32>
        ensures { result ≡ retained name.now (past_of self.now) }
    {
        match self.parts.names.get(name) {
            Some(session) => self.parts.sessions.if_retained(session),
            None => None,
        }
    }

    /// Whether the session began and neither finished nor was aborted.
    pub fn is_unfinished(&self, session: u32) -> bool
        ensures { result ≡ is_unfinished session (past_of self.now) }
    {
        self.parts.sessions.is_unfinished(session)
    }

    /// Whether the session was begun by this author.
    #[tactic(auto, unfolding(history::specs::Sessions::is_begun_by, history::specs::Sessions::author_of))]
    pub fn is_begun_by(&self, author: u32, session: u32) -> bool
        ensures { result ≡ is_begun_by author session (past_of self.now) }
    {
        match self.begin_of(session) {
            Some(entry) => author == entry.author,
            None => false,
        }
    }

    /// Whether the session has chosen champions for a segment that it has not committed.
    pub fn is_pending(&self, session: u32) -> bool
        ensures { result ≡ is_pending session (past_of self.now) }
    {
        self.parts.sessions.is_pending(session)
    }

    /// The hooks of the session's last choice.
    #[tactic(auto, unfolding(history::specs::Sessions::last_hooks))]
    pub fn last_hooks(&self, session: u32) -> &[Name]
        ensures { result.now ≡ last_hooks session (past_of self.now) }
    {
        match self.last_choice(session) {
            Some(entry) => hooks_chosen(&entry.point),
            None => &[],
        }
    }

    /// The champions of the session's last choice, whether it is pending or not.
    #[tactic(auto, unfolding(history_laws::specs::EntryNumbers::last_champions))]
    pub fn last_champions(&self, session: u32) -> &[ManifestId]
        ensures { result.now ≡ last_champions session (past_of self.now) }
    {
        match self.last_choice(session) {
            Some(entry) => champions_chosen(&entry.point),
            None => &[],
        }
    }

    /// The numbers of the entries that commit the champions of the session's last choice, one each.
    pub fn champion_numbers(&self, session: u32) -> &[u32]
        ensures { CommitThese result.now (last_champions session (past_of self.now)) (past_of self.now) }
    {
        self.parts.sessions.champions(session)
    }

    /// The numbers of the session's Choose entries, ascending.
    pub fn choices(&self, session: u32) -> &[u32]
        ensures { result.now ≡ numbers_of (chooses session) (past_of self.now) }
    {
        self.parts.sessions.choices(session)
    }

    /// The numbers of the session's Commit entries, ascending.
    pub fn commits(&self, session: u32) -> &[u32]
        ensures { result.now ≡ numbers_of (commits session) (past_of self.now) }
    {
        self.parts.sessions.commits(session)
    }

    /// The least number of containers that is above each own ordinal that the session used.
    pub fn own_end(&self, session: u32) -> u32
        ensures { result ≡ own_end session (past_of self.now) }
    {
        self.parts.sessions.own_end(session) as u32
    }

    /// Whether the reading began and is not done.
    pub fn is_reading(&self, reader: u32) -> bool
        ensures { result ≡ is_reading reader (past_of self.now) }
    {
        self.parts.readings.is_unfinished(reader)
    }

    /// Whether the reading was begun by this author.
    #[tactic(auto, unfolding(history::specs::Sessions::is_looked_by, history::specs::Sessions::author_of))]
    pub fn is_looked_by(&self, author: u32, reader: u32) -> bool
        ensures { result ≡ is_looked_by author reader (past_of self.now) }
    {
        match self.look_of(reader) {
            Some(entry) => author == entry.author,
            None => false,
        }
    }

    /// What the reading was begun with: its number and the session whose stream it reads.
    #[tactic(auto, unfolding(history_laws::specs::EntryNumbers::reading))]
    pub fn reading(&self, reader: u32) -> Option<Seen>
        ensures { result ≡ reading reader (past_of self.now) }
    {
        match self.look_of(reader) {
            Some(entry) => reading_begun(&entry.point),
            None => None,
        }
    }

    /// Adds an entry that may follow. An entry that ends a session or a reading needs no memory, since its room was
    /// made when that began.
    pub fn push(&mut self, entry: Entry) -> Result<(), Memory>
        requires { may_follow self.old.rules entry (past_of self.old) ≡ true }
        ensures ok { OnOk result (self.new ≡ record self.old { entries = self.old.entries ++ entry ∷ [] }) }
        ensures err { OnErr result (self.new ≡ self.old) }
        ensures ends { is_end entry.point ≡ true → IsOk result }
    {
        let unfinished = unfinished_after(self.unfinished, &entry.point);
        self.entries.try_reserve(unfinished as usize + 1)?;
        let number = self.entries.len() as u32;
        self.parts.note(number, &entry.point)?;
        push_reserved(&mut self.entries, entry);
        self.unfinished = unfinished;
        Ok(())
    }

    fn entry(&self, number: Option<u32>) -> Option<&Entry>
        ensures { option_copied result ≡ option_and_then (slice_get self.now.entries) number }
    {
        match number {
            Some(number) => self.entries.get(number as usize),
            None => None,
        }
    }

    fn begin_of(&self, session: u32) -> Option<&Entry>
        ensures { option_copied result ≡ newest (begins session) (past_of self.now) }
    {
        self.entry(self.parts.sessions.begin(session))
    }

    fn last_choice(&self, session: u32) -> Option<&Entry>
        ensures { option_copied result ≡ newest (chooses session) (past_of self.now) }
    {
        self.entry(self.parts.sessions.last_choice(session))
    }

    fn look_of(&self, reader: u32) -> Option<&Entry>
        ensures { option_copied result ≡ newest (looks reader) (past_of self.now) }
    {
        self.entry(self.parts.readings.look(reader))
    }
}

#[tactic(auto, unfolding(history::specs::Sessions::hooks_chosen))]
fn hooks_chosen(point: &Point) -> &[Name]
    ensures { result.now ≡ hooks_chosen point.now }
{
    match point {
        Point::Choose { hooks, .. } => hooks.as_slice(),
        _ => &[],
    }
}

#[tactic(auto, unfolding(history::specs::Sessions::champions_chosen))]
fn champions_chosen(point: &Point) -> &[ManifestId]
    ensures { result.now ≡ unwrap_or (champions_chosen point.now) [] }
{
    match point {
        Point::Choose { champions, .. } => champions.as_slice(),
        _ => &[],
    }
}

#[tactic(auto, unfolding(history::specs::Sessions::reading_begun))]
fn reading_begun(point: &Point) -> Option<Seen>
    ensures { result ≡ reading_begun point.now }
{
    match point {
        Point::Look { seen, .. } => *seen,
        _ => None,
    }
}

// How many sessions and readings are unfinished after an entry, by how many were.
fn unfinished_after(count: u32, point: &Point) -> u32
    requires { unfinished_after count point.now < 2 ^ 32 }
    ensures { result ≡ unfinished_after count point.now }
{
    match point {
        Point::Begin {
            session: Some(_),
            ..
        } => count + 1,
        Point::Look { seen: Some(_), .. } => count + 1,
        Point::Finish { .. } => count.saturating_sub(1),
        Point::Abort { .. } => count.saturating_sub(1),
        Point::Done { .. } => count.saturating_sub(1),
        _ => count,
    }
}

// Adds an entry for which there is room.
fn push_reserved(entries: &mut Vec<Entry>, entry: Entry)
    requires { vec_len entries.old < vec_capacity entries.old }
    ensures items { entries.new.items ≡ entries.old.items ++ entry ∷ [] }
    ensures len { vec_len entries.new ≡ vec_len entries.old + 1 }
    ensures capacity { vec_capacity entries.old ≤ vec_capacity entries.new }
{
    match entries.push(entry) {
        Ok(()) => {}
        Err(_) => unreachable!(),
    }
}

//! The queues of a row, under its lock.
ghost use Rattle.std.specs.Prelude.{◌≡◌, ◌+◌, ◌<◌, ◌≤◌, [], ◌∷◌, ◌++◌, ℕ, true, length, slice_index_or, IfOk, OnOk, IfErr, IfSome};
ghost use Rattle.std.specs.Arc.{arc_value};
ghost use Rattle.cc_steps.specs.Topic.{Topic};
ghost use Rattle.cc_steps.specs.Noted.{Noted, IsNoteOf};
ghost use Rattle.cc_steps.specs.Walk.{IsOf};
ghost use Rattle.cc_queue.specs.Group.{Ranked};
ghost use Rattle.cc_switch.specs.Links.{IsShutBy, IsEndedBy, total_of, queue_at, base_at, done_by};
ghost use Rattle.cc_switch.specs.Stages.{KeepsStages, IsSame, with_ended};
ghost use Rattle.cc_switch.specs.declared.links.Link.{Link};

use crate::links::{Ended, Link, RowLog};
use crate::stage::Stage;
use cc_guard::{Kept, TryLock};
use cc_queue::{Note, Queue, Receiver, Sender, again};
use std::alloc::{AllocError, Global};
use std::mem::replace;
use std::sync::Arc;

/// The last queue, the queues before it that some group isn't done with, and what shows how all queues follow each
/// other.
#[derive(Drop)]
pub struct Stages {
    pub(crate) links: Vec<Link>,
    pub(crate) older: Vec<Stage>,
    pub(crate) last: Stage,
    /// For each group, what shows with which queues it is done.
    pub(crate) ended: Vec<Ended>,
    /// Whether the row is closed: no queue is appended any more.
    pub(crate) closing: bool,
}

/// What is kept under the lock of a row. The key of the lock is the first queue.
pub struct RowKind;

impl Kept<Stages, RowLog, Queue> for RowKind {
    ghost use Rattle.cc_switch.specs.Links.{no_log, GoesOnFrom};
    ghost use Rattle.cc_switch.specs.Stages.{KeepsStages, log_of};
    ghost use Rattle.cc_switch.specs.Logs.{goes_same, goes_onward};

    ghost start = { no_log };

    ghost log = { log_of };

    ghost grows = { GoesOnFrom };

    ghost same = { goes_same };

    ghost onward = { goes_onward };

    ghost holds = { λ first t. KeepsStages first t };
}

/// For each of these groups, that it is done with no queue.
#[tactic(auto, using(crate::proofs::Growing::one_more_none))]
fn none_ended(alloc: Global, groups: u32) -> Result<Vec<Ended>, AllocError>
    ensures { IfOk result (λ e. (g : ℕ) → done_by e.items g ≡ []) }
{
    let mut ended = Vec::new(alloc);
    for _group in 0..groups {
        ended.push(Ended {
            notes: Vec::new(alloc),
        })?;
    }
    Ok(ended)
}

/// The lock of a row.
pub type RowLock = TryLock<Stages, RowLog, Queue, RowKind>;

impl Stages {
    /// A row of one queue, with this number of groups.
    ///
    /// # Errors
    ///
    /// `AllocError` if memory was refused.
    pub fn new(alloc: Global, stage: Stage, groups: u32) -> Result<Stages, AllocError>
        requires { stage.base ≡ 0 }
        ensures keeps { IfOk result (λ t. KeepsStages stage.queue t) }
    {
        Ok(Stages {
            links: Vec::new(alloc),
            older: Vec::new(alloc),
            last: stage,
            ended: none_ended(alloc, groups)?,
            closing: false,
        })
    }

    /// Appends a queue. By this note the last one was shut, with this total. Returns a sender of the new queue.
    ///
    /// # Errors
    ///
    /// The new queue, if memory was refused, the queue has no sender, or a place of the row would exceed 64 bits.
    /// Nothing has changed then.
    #[tactic(auto, using(crate::proofs::Growing::appended))]
    pub fn append(&mut self, shut: Note, total: u64, stage: Stage) -> Result<Sender, Stage>
        requires shut { IsShutBy self.old.last.queue shut }
        requires total { total ≡ total_of shut }
        ensures keeps { (first : Topic) → KeepsStages first self.old → KeepsStages first self.new }
        ensures links { IfOk result (λ s. (next : Noted) × (self.new.links.items ≡ self.old.links.items ++ record { shut = shut; next = next } ∷ [])) }
        ensures base { OnOk result (self.new.last.base ≡ self.old.last.base + total) }
        ensures of { IfOk result (λ s. IsOf self.new.last.queue s) }
        ensures same { IfErr result (λ _. self.new.links.items ≡ self.old.links.items) }
        ensures ended { self.new.ended.items ≡ self.old.ended.items }
    {
        let Some(base) = self.last.base.checked_add(total) else {
            return Err(stage);
        };
        if self.links.reserve(1).is_err() {
            return Err(stage);
        }
        if self.older.reserve(1).is_err() {
            return Err(stage);
        }
        let mut stage = stage;
        let Some(mut sender) = stage.sender() else {
            return Err(stage);
        };
        let next = sender.note();
        stage.base = base;
        let before = replace(&mut self.last, stage);
        self.older.push_reserved(before);
        self.links.push_reserved(Link { shut, next });
        Ok(sender)
    }

    /// Another copy of the note by which the queue of this number was shut.
    #[tactic(auto, using(crate::proofs::Growing::same_items))]
    pub(crate) fn shut_note(&mut self, number: u64, queue: &Queue) -> Note
        requires there { number < length self.old.links.items }
        requires of { (d : Link) → IsNoteOf queue.now (slice_index_or self.old.links.items number d).shut }
        ensures same { IsSame self.old self.new }
        ensures noted { (d : Link) → result ≡ (slice_index_or self.old.links.items number d).shut }
    {
        again(queue, &mut self.links[number as usize].shut)
    }

    /// A sender of the last queue, if one is left.
    pub(crate) fn last_sender(&mut self) -> Option<Sender>
        ensures same { IsSame self.old self.new }
        ensures of { IfSome result (λ s. IsOf self.new.last.queue s) }
    {
        self.last.sender()
    }

    /// With how many queues the group is done: the number of the queue that it is at.
    pub(crate) fn done(&self, group: u32) -> usize
        ensures { result ≡ length (done_by self.now.ended.items group) }
    {
        if group as usize >= self.ended.len() {
            return 0;
        }
        self.ended[group as usize].notes.len()
    }

    /// By this note, the group is done with the queue that it was at. False if memory was refused, or there is no such
    /// group: nothing has changed then.
    #[tactic(auto, using(crate::proofs::Growing::ended_or))]
    pub(crate) fn end(&mut self, _row: &Arc<RowLock, Global>, group: u32, ended: Note) -> bool
        requires keeps { KeepsStages (arc_value _row.now).key self.old }
        requires more { length (done_by self.old.ended.items group) < length self.old.links.items }
        requires done { IsEndedBy group (queue_at (arc_value _row.now).key self.old.links.items (length (done_by self.old.ended.items group))) ended }
        requires agreed { (d : Link) → total_of ended ≡ total_of (slice_index_or self.old.links.items (length (done_by self.old.ended.items group)) d).shut }
        ensures keeps { KeepsStages (arc_value _row.now).key self.new }
        ensures links { self.new.links.items ≡ self.old.links.items }
        ensures ended { self.new.ended.items ≡ with_ended result group ended self.old.ended.items }
        ensures rest { (self.new.older.items ≡ self.old.older.items) × (self.new.last ≡ self.old.last) }
    {
        self.note_end(group, ended)
    }

    /// Adds this note to those of the group, unless memory was refused, or there is no such group.
    #[tactic(auto, using(crate::proofs::Growing::written))]
    fn note_end(&mut self, group: u32, ended: Note) -> bool
        ensures ended { self.new.ended.items ≡ with_ended result group ended self.old.ended.items }
        ensures links { self.new.links.items ≡ self.old.links.items }
        ensures rest { (self.new.older.items ≡ self.old.older.items) × (self.new.last ≡ self.old.last) }
    {
        if group as usize >= self.ended.len() {
            return false;
        }
        self.ended[group as usize].add(ended)
    }

    /// A receiver of the queue that the group is at, a share of that queue, and how many items the queues before it
    /// accepted.
    pub(crate) fn receiver(&mut self, group: u32) -> Option<(Receiver, Queue, u64)>
        ensures same { IsSame self.old self.new }
        ensures of { IfSome result (λ r. IsOf r.1 r.0) }
        ensures ranked { IfSome result (λ r. Ranked r.0 (group + 1)) }
        ensures has { IfSome result (λ r. group < r.1.setting.config.groups) }
        ensures at { IfSome result (λ r. (first : Topic) → KeepsStages first self.old → (length (done_by self.old.ended.items group) ≤ length self.old.links.items) × (r.1 ≡ queue_at first self.old.links.items (length (done_by self.old.ended.items group))) × (r.2 ≡ base_at self.old.links.items (length (done_by self.old.ended.items group)))) }
    {
        let at = self.done(group);
        self.receiver_at(group, at)
    }

    /// The same, where the group is done with this number of queues.
    fn receiver_at(&mut self, group: u32, at: usize) -> Option<(Receiver, Queue, u64)>
        requires { at ≡ length (done_by self.old.ended.items group) }
        ensures same { IsSame self.old self.new }
        ensures of { IfSome result (λ r. IsOf r.1 r.0) }
        ensures ranked { IfSome result (λ r. Ranked r.0 (group + 1)) }
        ensures has { IfSome result (λ r. group < r.1.setting.config.groups) }
        ensures at { IfSome result (λ r. (first : Topic) → KeepsStages first self.old → (length (done_by self.old.ended.items group) ≤ length self.old.links.items) × (r.1 ≡ queue_at first self.old.links.items (length (done_by self.old.ended.items group))) × (r.2 ≡ base_at self.old.links.items (length (done_by self.old.ended.items group)))) }
    {
        let (kept, queues) = (self.older.len(), self.links.len());
        if at >= queues {
            let base = self.last.base;
            let share = self.last.queue.share().ok()?;
            return Some((self.last.receiver(group)?, share, base));
        }
        if queues < kept || at < queues - kept {
            return None;
        }
        let stage = &mut self.older[at - (queues - kept)];
        let base = stage.base;
        let share = stage.queue.share().ok()?;
        Some((stage.receiver(group)?, share, base))
    }

    /// The number of the last queue, how many items the queues before it accepted, and a share of it.
    pub(crate) fn last_place(&self) -> Result<(u64, u64, Queue), AllocError>
        ensures { IfOk result (λ r. (r.0 ≡ length self.now.links.items) × (r.1 ≡ self.now.last.base) × (r.2 ≡ self.now.last.queue)) }
    {
        let share = self.last.queue.share()?;
        Ok((self.links.len() as u64, self.last.base, share))
    }

    /// Whether each group is done with the queue of this number.
    fn is_left(&self, number: usize) -> bool
        ensures { result ≡ true → (g : ℕ) → g < length self.now.ended.items → number < length (done_by self.now.ended.items g) }
    {
        for group in 0..self.ended.len() {
            if self.ended[group].notes.len() <= number {
                return false;
            }
        }
        true
    }

    /// Removes the oldest queue, if each group is done with it.
    pub(crate) fn drained(&mut self) -> Option<Stage>
        ensures keeps { (first : Topic) → KeepsStages first self.old → KeepsStages first self.new }
        ensures links { self.new.links.items ≡ self.old.links.items }
        ensures last { self.new.last ≡ self.old.last }
        ensures ended { self.new.ended.items ≡ self.old.ended.items }
    {
        let kept = self.older.len();
        let queues = self.links.len();
        if kept == 0 || queues < kept || !self.is_left(queues - kept) {
            return None;
        }
        Some(self.older.remove(0))
    }
}

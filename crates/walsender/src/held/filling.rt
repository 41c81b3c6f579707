//! Frames of what is held, made as they go out.

ghost use Rattle.std.specs.Prelude.{◌≡◌, ◌+◌, ◌-◌, ◌<◌, ◌≤◌, ◌++◌, ◌∷◌, [], ℕ, List, MatchBool, drop, length, nat_lt, take};
ghost use Rattle.walsender.specs.declared.held.committed_transaction.CommittedTransaction.{CommittedTransaction};
ghost use Rattle.walsender.specs.Outgoing.{HoldsSame, IsFilled, IsOutgoing, held_of};

use crate::commit_frames::bounds::put_commit_of;
use crate::commit_frames::making::{LEAST_ROOM, MAX_FRAME_LENGTH, next_frame};
use crate::held::outgoing::Outgoing;
use publication::Selection;
use reorder::Reorder;

impl Outgoing {
    /// Makes frames where there are none left, and answers whether there are any then. It takes no memory.
    pub(crate) fn fill(&mut self, selection: &Selection, reorder: &mut Reorder) -> bool
        requires good { IsOutgoing selection.now reorder.old self.old }
        ensures same { HoldsSame selection.now reorder.old reorder.new self.old self.new }
        ensures front { self.new.front ≡ self.old.front }
        ensures more { MatchBool result (self.new.from < self.new.to)
            (held_of selection.now reorder.new self.new ≡ self.new.front.items) }
    {
        if self.from < self.to {
            return true;
        }
        if self.made.is_empty() && self.waiting.is_empty() {
            return false;
        }
        self.from = 0;
        self.to = 0;
        self.make(selection, reorder)
    }

    /// The same, but that it makes as many as there is room for.
    pub(crate) fn fill_up(&mut self, selection: &Selection, reorder: &mut Reorder) -> bool
        requires good { IsOutgoing selection.now reorder.old self.old }
        ensures same { HoldsSame selection.now reorder.old reorder.new self.old self.new }
        ensures front { self.new.front ≡ self.old.front }
        ensures more { MatchBool result (self.new.from < self.new.to)
            (held_of selection.now reorder.new self.new ≡ self.new.front.items) }
    {
        if !self.fill(selection, reorder) {
            return false;
        }
        while self.to + LEAST_ROOM <= self.frames.len() && self.make(selection, reorder) {}
        true
    }

    /// Makes frames after those that are left, and answers whether there were any to make that surely had room.
    fn make(&mut self, selection: &Selection, reorder: &mut Reorder) -> bool
        requires good { IsOutgoing selection.now reorder.old self.old }
        requires room { self.old.to + LEAST_ROOM ≤ length self.old.frames.items }
        ensures same { HoldsSame selection.now reorder.old reorder.new self.old self.new }
        ensures frames { IsFilled self.old self.new }
        ensures more { MatchBool result (self.old.to < self.new.to)
            ((self.new.to ≡ self.old.to)
            × (self.old.to + MAX_FRAME_LENGTH ≤ length self.old.frames.items →
            (self.new.made.items ≡ []) × (self.new.waiting.items ≡ []))) }
    {
        if !self.waiting.is_empty() {
            return self.make_first(selection, reorder);
        }
        let count = self.made.len().min(self.frames.len() - self.to);
        self.move_made(count);
        count > 0
    }

    /// Makes a frame of the first transaction that waits, or moves bytes that are made before it. False: it may not have room.
    fn make_first(&mut self, selection: &Selection, reorder: &mut Reorder) -> bool
        requires good { IsOutgoing selection.now reorder.old self.old }
        requires room { self.old.to + LEAST_ROOM ≤ length self.old.frames.items }
        requires waits { 0 < length self.old.waiting.items }
        ensures same { HoldsSame selection.now reorder.old reorder.new self.old self.new }
        ensures frames { IsFilled self.old self.new }
        ensures more { MatchBool result (self.old.to < self.new.to)
            ((self.new.to ≡ self.old.to)
            × (length self.old.frames.items < self.old.to + MAX_FRAME_LENGTH)) }
    {
        let before = self.bytes_before_first();
        if before > 0 {
            let count = before.min(self.frames.len() - self.to);
            self.pass_before_first(count);
            self.move_made(count);
            return true;
        }
        if self.put_first(selection, reorder) > 0 {
            return true;
        }
        if self.has_changes_left() {
            return false;
        }
        self.finish_first(selection, reorder);
        true
    }

    /// How many bytes that are made stand before the first transaction that waits.
    fn bytes_before_first(&self) -> usize
        ensures { (w : CommittedTransaction) (ws : List CommittedTransaction) → self.now.waiting.items ≡ w ∷ ws →
            result ≡ w.before }
    {
        match self.waiting.front() {
            Some(waiting) => waiting.before,
            None => 0,
        }
    }

    /// So many fewer stand there.
    fn pass_before_first(&mut self, count: usize)
        requires there { (w : CommittedTransaction) (ws : List CommittedTransaction) → self.old.waiting.items ≡ w ∷ ws →
            count ≤ w.before }
        requires placed { count ≤ self.old.placed }
        ensures waiting { (w : CommittedTransaction) (ws : List CommittedTransaction) → self.old.waiting.items ≡ w ∷ ws →
            self.new.waiting.items ≡ record w { before = w.before - count } ∷ ws }
        ensures rest { self.new
            ≡ record self.old { waiting = self.new.waiting; placed = self.old.placed - count } }
    {
        if let Some(waiting) = self.waiting.front_mut() {
            waiting.before -= count;
        }
        self.placed -= count;
    }

    /// Makes the next frame of the first transaction that waits, and answers how long it is: 0 where no change of it is left that has
    /// one, and where it may not have room.
    fn put_first(&mut self, selection: &Selection, reorder: &Reorder) -> usize
        requires good { IsOutgoing selection.now reorder.now self.old }
        requires room { self.old.to + LEAST_ROOM ≤ length self.old.frames.items }
        requires waits { 0 < length self.old.waiting.items }
        requires first { (w : CommittedTransaction) (ws : List CommittedTransaction) → self.old.waiting.items ≡ w ∷ ws →
            w.before ≡ 0 }
        ensures same { HoldsSame selection.now reorder.now reorder.now self.old self.new }
        ensures frames { IsFilled self.old self.new }
        ensures moved { self.new.to ≡ self.old.to + result }
        ensures waits { 0 < length self.new.waiting.items }
        ensures first { (w : CommittedTransaction) (ws : List CommittedTransaction) → self.new.waiting.items ≡ w ∷ ws →
            w.before ≡ 0 }
        ensures over { (w : CommittedTransaction) (ws : List CommittedTransaction) → self.new.waiting.items ≡ w ∷ ws →
            result ≡ 0 → self.new.to + MAX_FRAME_LENGTH ≤ length self.new.frames.items →
            length w.ready.places ≤ w.next }
    {
        let end = self.to + (self.frames.len() - self.to).min(MAX_FRAME_LENGTH);
        let Some(waiting) = self.waiting.front_mut() else {
            return 0;
        };
        let out = &mut self.frames[self.to..end];
        let count = next_frame(selection, reorder, waiting, &mut self.relations_sent, out);
        self.to += count;
        count
    }

    /// Whether a change of the first transaction that waits is left.
    fn has_changes_left(&self) -> bool
        ensures { (w : CommittedTransaction) (ws : List CommittedTransaction) → self.now.waiting.items ≡ w ∷ ws →
            result ≡ nat_lt w.next (length w.ready.places) }
    {
        match self.waiting.front() {
            Some(waiting) => waiting.next < waiting.ready.count(),
            None => false,
        }
    }

    /// Makes the Commit of the first transaction that waits, of which no change is left. What was ready goes back, and it waits no more.
    fn finish_first(&mut self, selection: &Selection, reorder: &mut Reorder)
        requires good { IsOutgoing selection.now reorder.old self.old }
        requires room { self.old.to + LEAST_ROOM ≤ length self.old.frames.items }
        requires over { (w : CommittedTransaction) (ws : List CommittedTransaction) → self.old.waiting.items ≡ w ∷ ws →
            (w.before ≡ 0) × (length w.ready.places ≤ w.next) }
        requires waits { 0 < length self.old.waiting.items }
        ensures same { HoldsSame selection.now reorder.old reorder.new self.old self.new }
        ensures frames { IsFilled self.old self.new }
        ensures more { self.old.to < self.new.to }
    {
        if let Some(waiting) = self.waiting.pop_front() {
            let end = self.to + LEAST_ROOM;
            self.to += put_commit_of(&waiting, &mut self.frames[self.to..end]);
            reorder.finish(waiting.ready);
        }
    }

    /// Moves so many of the bytes that are made after the frames.
    fn move_made(&mut self, count: usize)
        requires enough { count ≤ length self.old.made.items }
        requires room { self.old.to + count ≤ length self.old.frames.items }
        ensures frames { take self.new.to self.new.frames.items
            ≡ take self.old.to self.old.frames.items ++ take count self.old.made.items }
        ensures size { length self.new.frames.items ≡ length self.old.frames.items }
        ensures to { self.new.to ≡ self.old.to + count }
        ensures made { self.new.made.items ≡ drop count self.old.made.items }
        ensures rest { self.new
            ≡ record self.old { frames = self.new.frames; made = self.new.made; to = self.new.to } }
    {
        let end = self.to + count;
        self.frames[self.to..end].copy_from_slice(&self.made.as_slice()[..count]);
        self.made.advance(count);
        self.to = end;
    }
}

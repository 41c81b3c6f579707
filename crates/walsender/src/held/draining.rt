//! Bytes of what is held, moved out.

ghost use Rattle.std.specs.Prelude.{◌≡◌, ◌⊎◌, ◌-◌, ◌+◌, ◌<◌, ◌≤◌, ◌++◌, [], IfOk, MatchBool, OnErr, OnOk, drop, length, min, take};
ghost use Rattle.walsender.specs.Outgoing.{HasFreeChunk, HoldsSame, IsOutgoing, LeavesChunk, MovesOut, frames_left, held_of};

use crate::held::outgoing::Outgoing;
use bytes::{BufMut, BytesMut};
use publication::Selection;
use reorder::Reorder;
use std::alloc::AllocError;

impl Outgoing {
    /// Moves bytes out, as many as there is room for, and answers how many.
    pub(crate) fn drain(
        &mut self,
        selection: &Selection,
        reorder: &mut Reorder,
        out: &mut [u8],
    ) -> usize
        requires { IsOutgoing selection.now reorder.old self.old }
        ensures count { result
            ≡ min (length out.old) (length (held_of selection.now reorder.old self.old)) }
        ensures moved { take result out.new
            ≡ take result (held_of selection.now reorder.old self.old) }
        ensures others { drop result out.new ≡ drop result out.old }
        ensures rest { MovesOut selection.now result reorder.old reorder.new self.old self.new }
    {
        let mut count = self.take_front(out);
        while count < out.len() && self.fill(selection, reorder) {
            count += self.take_frames(&mut out[count..]);
        }
        count
    }

    /// Moves bytes of the front.
    fn take_front(&mut self, out: &mut [u8]) -> usize
        ensures count { result ≡ min (length out.old) (length self.old.front.items) }
        ensures moved { take result out.new ≡ take result self.old.front.items }
        ensures others { drop result out.new ≡ drop result out.old }
        ensures rest { self.new.front.items ≡ drop result self.old.front.items }
        ensures same { self.new ≡ record self.old { front = self.new.front } }
    {
        let count = out.len().min(self.front.len());
        copy_front(out, self.front.as_slice(), count);
        self.front.advance(count);
        count
    }

    /// Moves bytes of the frames that are left.
    fn take_frames(&mut self, out: &mut [u8]) -> usize
        requires order { self.old.from ≤ self.old.to }
        requires within { self.old.to ≤ length self.old.frames.items }
        ensures count { result ≡ min (length out.old) (self.old.to - self.old.from) }
        ensures moved { take result out.new ≡ take result (frames_left self.old) }
        ensures others { drop result out.new ≡ drop result out.old }
        ensures length { length out.new ≡ length out.old }
        ensures rest { self.new ≡ record self.old { from = self.old.from + result } }
    {
        let count = out.len().min(self.to - self.from);
        copy_front(out, &self.frames[self.from..self.to], count);
        self.from += count;
        count
    }

    /// Moves up to `max` bytes to the end of `out`, or, where memory is refused, nothing.
    pub(crate) fn drain_into(
        &mut self,
        selection: &Selection,
        reorder: &mut Reorder,
        max: usize,
        out: &mut BytesMut,
    ) -> Result<(), AllocError>
        requires { IsOutgoing selection.now reorder.old self.old }
        ensures moved { OnOk result
            (out.new.items
            ≡ out.old.items ++ take max (held_of selection.now reorder.old self.old)) }
        ensures rest { OnOk result
            (MovesOut selection.now max reorder.old reorder.new self.old self.new) }
        ensures err { OnErr result
            (HoldsSame selection.now reorder.old reorder.new self.old self.new
            × (out.new.items ≡ out.old.items)) }
    {
        self.gather(selection, reorder, max)?;
        let front = front_of(self.front.as_slice(), max);
        let count = front.len();
        out.put_slice(front)?;
        self.front.advance(count);
        Ok(())
    }

    /// Makes frames ahead, into memory, where the arena is full, until a chunk of it is free or no transaction waits. So what waits
    /// never keeps a change from coming.
    pub(crate) fn give_way(
        &mut self,
        selection: &Selection,
        reorder: &mut Reorder,
    ) -> Result<(), AllocError>
        requires { IsOutgoing selection.now reorder.old self.old }
        ensures same { HoldsSame selection.now reorder.old reorder.new self.old self.new }
        ensures free { OnOk result ((self.new.waiting.items ≡ []) ⊎ HasFreeChunk reorder.new) }
        ensures left { OnErr result (LeavesChunk reorder.old self.old) }
    {
        while !self.waiting.is_empty() && reorder.free_chunks() == 0 {
            self.gather_frames(selection, reorder)?;
        }
        Ok(())
    }

    /// Gathers so many bytes at the front, or all where there are fewer. Where memory is refused, there may be less.
    fn gather(
        &mut self,
        selection: &Selection,
        reorder: &mut Reorder,
        max: usize,
    ) -> Result<(), AllocError>
        requires { IsOutgoing selection.now reorder.old self.old }
        ensures same { HoldsSame selection.now reorder.old reorder.new self.old self.new }
        ensures gathered { OnOk result
            (take max self.new.front.items
            ≡ take max (held_of selection.now reorder.old self.old)) }
        ensures behind { OnOk result
            (held_of selection.now reorder.new
            (record self.new {
              front =
                  record self.new.front { items = drop max self.new.front.items };
            })
            ≡ drop max (held_of selection.now reorder.old self.old)) }
    {
        while self.front.len() < max {
            if !self.gather_frames(selection, reorder)? {
                return Ok(());
            }
        }
        Ok(())
    }

    /// Moves frames after the front, and answers whether there were any. Where memory is refused, they stay.
    fn gather_frames(
        &mut self,
        selection: &Selection,
        reorder: &mut Reorder,
    ) -> Result<bool, AllocError>
        requires { IsOutgoing selection.now reorder.old self.old }
        ensures same { HoldsSame selection.now reorder.old reorder.new self.old self.new }
        ensures more { IfOk result
            (λ b. MatchBool b (length self.old.front.items < length self.new.front.items)
            (held_of selection.now reorder.new self.new ≡ self.new.front.items)) }
    {
        if !self.fill(selection, reorder) {
            return Ok(false);
        }
        self.front.put_slice(&self.frames[self.from..self.to])?;
        self.from = self.to;
        Ok(true)
    }
}

fn copy_front(out: &mut [u8], bytes: &[u8], count: usize)
    requires out_room { count ≤ length out.old }
    requires enough { count ≤ length bytes.now }
    ensures moved { take count out.new ≡ take count bytes.now }
    ensures others { drop count out.new ≡ drop count out.old }
{
    out[..count].copy_from_slice(&bytes[..count]);
}

/// At most so many bytes of the front.
#[tactic(auto, using(std::proofs::lemmas::List::take_all))]
fn front_of(bytes: &[u8], max: usize) -> &[u8]
    ensures { result.now ≡ take max bytes.now }
{
    match bytes.split_at_checked(max) {
        Some((front, _)) => front,
        None => bytes,
    }
}

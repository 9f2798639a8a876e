// What the search remembers of the gates and gaps in a buffer.
ghost use Rattle.std.specs.Prelude.{◌≡◌, false, List, ◌++◌, ℕ, ◌+◌, ◌*◌, ◌/◌, ◌≤◌, ◌<◌, drop, MatchOption};
ghost use Rattle.ranges.specs.Ranges.{span};
ghost use Rattle.gates.specs.declared.Gate.{Gate};
ghost use Rattle.rules.specs.Tidying.{gate};
ghost use Rattle.remembering.specs.Inner.Buffers.{is_gap};
ghost use Rattle.remembering.specs.Inner.LentBuffers.{held};
ghost use Rattle.remembering.specs.Inner.Rows.{Clear, Stops, NoPairBefore, NextRow, ReachBounds};
ghost use Rattle.remembering.specs.Inner.Views.{StretchesMarked};
ghost use Rattle.remembering.specs.Inner.Memories.{blank, RoomFor, MemoryTrue, MemoryFresh, ReachKept};

use super::buffer::Buffer;
use super::rows::SETTLED;
use super::views::{Sets, UNKNOWN};

// far has a number for each row (see `rows`), reach one for each stretch of sixteen rows that bounds theirs, so that the rows that reach a changed
// gate are found 256 at a time; marks has what stands in each stretch.
#[derive(Drop)]
pub struct Memory<const R: usize, const S: usize> {
    pub far: [u16; R],
    pub reach: [u16; S],
    pub marks: [Sets; S],
}

impl<const R: usize, const S: usize> Memory<R, S> {
    // Of no gates.
    pub fn new() -> Self
        ensures { result ≡ blank R S }
    {
        Memory {
            far: [0; R],
            reach: [0; S],
            marks: [UNKNOWN; S],
        }
    }

    // Of m gates, after none: each row is clear up to the gate behind its own, and of no stretch anything is known. It is begun where it lies, since to
    // hand it out copies it.
    pub fn start(&mut self, m: usize)
        requires { (m ≤ 8000) × (m ≤ R) × (m ≤ 16 * S) }
        ensures fresh { self.old ≡ blank R S → RoomFor R S m → MemoryFresh self.new m }
        ensures bounded { self.old ≡ blank R S → (k : ℕ) → ReachBounds self.new.far self.new.reach k }
        ensures numbers { (self.new.far ≡ span (λ r. r + 1) 0 m ++ drop m self.old.far)
            × (self.new.reach ≡ span (λ s. 16 * s + 16) 0 ((m + 15) / 16) ++ drop ((m + 15) / 16) self.old.reach)
            × (self.new.marks ≡ self.old.marks) }
    {
        for r in 0..m {
            self.far[r] = (r + 1) as u16;
        }
        for s in 0..(m + 15) / 16 {
            self.reach[s] = (16 * s + 16) as u16;
        }
    }

    // The first row from i on that may have a pair. Row i is asked alone, since most often it is the one; settled rows are then passed sixteen at a time.
    pub fn next_row(&self, m: usize, i: usize) -> Option<usize>
        requires { (i ≤ m) × (m + 16 ≤ R) × NoPairBefore self.now.far i }
        ensures { MatchOption result (NoPairBefore self.now.far m) (λ r. NextRow self.now.far m i r) }
    {
        let far = &self.far[..];
        if i < m && far[i] < SETTLED {
            return Some(i);
        }
        let run = super::rows::settled_run(&far[i..m]);
        for r in i + run..m {
            if self.far[r] < SETTLED {
                return Some(r);
            }
        }
        None
    }

    // Row i, which is clear up to place j, has no pair.
    pub fn stop_row(&mut self, i: usize, j: usize)
        requires { (i < R) × (i < 16 * S) × (j ≤ 8000) }
        ensures stopped { (gs : List Gate) (m : ℕ) → MemoryTrue gs self.old m i → i < m → is_gap (gate gs i) ≡ false
            → Clear gs i j → Stops gs i j → MemoryTrue gs self.new m (i + 1) }
        ensures reach_kept { ReachKept self.old self.new }
    {
        self.far[i] = j as u16 + SETTLED;
        super::rows::raise_reach(&mut self.reach, i, j as u16);
    }

    // Row i is clear up to a place; answers up to where it is clear once whole stretches from there on are passed. They are not looked at on a short
    // walk, and the row's record is read here, so that nothing is made ready for rows that walk no further.
    pub fn pass_stretches(&mut self, buffer: &Buffer, i: usize, from: usize) -> usize
        requires { StretchesMarked (held buffer.now) self.old.marks × (is_gap (gate (held buffer.now) i) ≡ false)
            × Clear (held buffer.now) i from }
        ensures passed { StretchesMarked (held buffer.now) self.new.marks × (from ≤ result) × Clear (held buffer.now) i result }
        ensures rows { (self.new.far ≡ self.old.far) × (self.new.reach ≡ self.old.reach) }
    {
        if from < i + 16 || from % 16 != 0 {
            return from;
        }
        let seen = super::views::see_word(buffer.word(i));
        for s in from / 16..buffer.count / 16 {
            super::views::mark_stretch(buffer, &mut self.marks, s);
            if !seen.meets_none(self.marks[s]) {
                return 16 * s;
            }
        }
        16 * (buffer.count / 16)
    }
}

#[cfg(test)]
mod tests {
    use super::*;

    // Of two gates: row 1 stops at place 2, which its stretch reaches from the start on; row 16, of a stretch that has the number 0, raises it.
    #[test]
    fn stretches_bound_their_rows(rt: HostRuntime) {
        let mut memory = Memory::<80, 20>::new();
        memory.start(2);
        assert_eq!(rt; memory.far[1], 2);
        assert_eq!(rt; memory.far[2], 0);
        assert_eq!(rt; memory.reach[0], 16);
        memory.stop_row(1, 2);
        assert_eq!(rt; memory.far[1], SETTLED + 2);
        assert_eq!(rt; memory.reach[0], 16);
        memory.stop_row(16, 17);
        assert_eq!(rt; memory.reach[1], 17);
    }
}

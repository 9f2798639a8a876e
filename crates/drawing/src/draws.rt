// The generator, by which tables, gates and cascades are drawn, each gate by itself or of few kinds.
ghost use Rattle.std.specs.Prelude.{◌≡◌, ◌<◌, ◌≤◌, length, slice_index, IsPermutation};
ghost use Rattle.std.specs.List.{range_with_len};

// How a cascade is drawn: gate by gate, or out of a few kinds, which are drawn before it and may be such that all pass each other.
#[derive(Clone, Copy)]
pub enum Manner {
    Single,
    Dense,
    Passing,
}

// The state after the last draw, and how many lines the gates have that are drawn.
#[derive(Clone, Copy)]
pub struct Generator {
    pub state: u32,
    pub lines: u8,
    ghost some_lines: { 0 < lines },
    ghost few_lines: { lines ≤ 6 },
}

impl Generator {
    pub fn new(lines: u8, seed: u32) -> Generator
        requires some_lines { 0 < lines }
        requires few_lines { lines ≤ 6 }
        ensures lines { result.lines ≡ lines }
        ensures seed { result.state ≡ seed }
    {
        Generator { state: seed, lines }
    }

    // The next draw: a number below an end, by the upper 16 of the 32 bits.
    fn below(&mut self, end: usize) -> usize
        requires { 0 < end }
        ensures { result < end }
    {
        self.state = self.state.wrapping_mul(1664525).wrapping_add(1013904223);
        (self.state >> 16) as usize % end
    }

    // A table: the identity, each entry from the last on exchanged with one drawn among those up to it.
    pub fn draw_table(&mut self, table: &mut [u16])
        requires { length table.old ≤ 729 }
        ensures { IsPermutation (range_with_len 0 (length table.old)) table.new }
    {
        crate::orders::write_first(table);
        for last in (1..table.len()).rev() {
            table.swap(last, self.below(last + 1));
        }
    }

    // A gate's record: the target, the operator, and the control on each other line, of which half are none.
    fn draw_gate(&mut self) -> [u8; 8]
        ensures { slice_index result 1 < self.old.lines }
    {
        let lines = self.lines as usize;
        let target = self.below(lines);
        let operator = self.below(5) + 1;
        let mut record = [operator as u8, target as u8, 3, 3, 3, 3, 3, 3];
        for k in 0..lines {
            if k != target {
                record[2 + k] = self.below(6).min(3) as u8;
            }
        }
        record
    }

    // A C1 or a C2 on the last line, made of a drawn gate, whose control on that line goes to the line that was its target: all such gates pass each other.
    fn draw_passing(&mut self) -> [u8; 8] {
        let mut record = self.draw_gate();
        let target = record[1] as usize;
        record.swap(2 + target, 1 + self.lines as usize);
        record[0] = 2 - record[0] % 2;
        record[1] = self.lines - 1;
        record
    }

    // Gates that fill the room.
    fn draw_gates(&mut self, manner: Manner, room: &mut [[u8; 8]]) {
        for record in room {
            *record = match manner {
                Manner::Single | Manner::Dense => self.draw_gate(),
                Manner::Passing => self.draw_passing(),
            };
        }
    }

    // Gates that fill the room, each of one of so many kinds.
    fn mix_kinds<const KINDS: usize>(&mut self, manner: Manner, room: &mut [[u8; 8]])
        requires some_kinds { 0 < KINDS }
        requires few_kinds { KINDS ≤ 40 }
    {
        let mut kinds = [[0u8; 8]; KINDS];
        self.draw_gates(manner, &mut kinds);
        for record in room {
            *record = kinds[self.below(KINDS)];
        }
    }

    // A cascade that fills the room.
    pub fn draw_cascade(&mut self, manner: Manner, room: &mut [u8]) {
        let (records, _) = room.as_chunks_mut();
        match manner {
            Manner::Single => self.draw_gates(manner, records),
            Manner::Dense => self.mix_kinds::<8>(manner, records),
            Manner::Passing => self.mix_kinds::<40>(manner, records),
        }
    }
}

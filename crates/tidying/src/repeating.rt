// Steps repeated until none fits.
ghost use Rattle.std.specs.Prelude.{◌≡◌};
ghost use Rattle.remembering.specs.Inner.Memories.{blank, RoomFor};
ghost use Rattle.remembering.specs.Inner.LentBuffers.{SameRecords};
ghost use Rattle.tidying.specs.Inner.PairSearches.{GateRecords, TidyHeld, TidiedIn};

use super::Tidied;
use remembering::buffer::Buffer;
use remembering::memory::Memory;

// Steps until none fits; answers how many.
fn repeat_steps<const R: usize, const S: usize>(
    buffer: &mut Buffer,
    memory: &mut Memory<R, S>,
) -> usize
    requires { GateRecords buffer.old.bytes.now buffer.old.count × (memory.old ≡ blank R S) × RoomFor R S buffer.old.count }
    ensures same_records { SameRecords buffer.old buffer.new }
    ensures tidy_held { TidyHeld buffer.old.bytes.now buffer.new result }
{
    memory.start(buffer.count);
    let mut from = 0;
    let mut steps = 0;
    while let Some(pair) = super::pairs::find_pair(buffer, memory, from) {
        from = super::applying::apply_rule(buffer, memory, pair);
        steps += 1;
    }
    steps
}

// Tidies the m records of the lent bytes, with room to remember them. It is not inlined, so that the memory is made where it stands: else it would be
// copied there.
#[inline(never)]
fn tidy_with<const R: usize, const S: usize>(
    b: &mut [u8],
    memory: &mut Memory<R, S>,
    m: usize,
) -> Tidied
    requires { GateRecords b.old m × (memory.old ≡ blank R S) × RoomFor R S m }
    ensures { TidiedIn b.old b.new result.left result.steps }
{
    let mut buffer = Buffer::new(b, m);
    let steps = repeat_steps(&mut buffer, memory);
    let left = remembering::buffer::close_gaps(b, m);
    remembering::buffer::clear_from(b, 8 * left);
    Tidied { left, steps }
}

// Tidies the m records of the lent bytes.
pub fn tidy_records(b: &mut [u8], m: usize) -> Tidied
    requires { GateRecords b.old m }
    ensures { TidiedIn b.old b.new result.left result.steps }
{
    // A short cascade gets a short memory: clearing the long one takes longer than tidying it.
    if m <= 64 {
        let mut memory = Memory::<80, 20>::new();
        return tidy_with(b, &mut memory, m);
    }
    let mut memory = Memory::<8016, 516>::new();
    tidy_with(b, &mut memory, m)
}

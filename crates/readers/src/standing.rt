// Where a reader stands.
ghost use Rattle.std.specs.Prelude.{◌≡◌};
ghost use Rattle.readers.specs.Readers.{record_stands};

// A whole record stands from a place on before an offset and the file's end.
#[tactic(auto, unfolding(crate::specs::Readers::record_stands))]
pub fn record_stands(file: &[u8], at: usize, end: usize) -> bool
    ensures { result ≡ record_stands file.now at end }
{
    gates::ends_by(at, end) && gates::ends_by(at, file.len())
}

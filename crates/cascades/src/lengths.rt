// The length of a given cascade.
ghost use Rattle.std.specs.Prelude.{◌≡◌, true, false, MatchResult};
ghost use Rattle.cascades.specs.Answers.{length_ok};

use card::Refusal;

// Whole records, and at most 8,000 of them.
pub fn length_ok(len: usize) -> bool
    ensures { result ≡ length_ok len }
{
    len % 8 == 0 && len <= 64000
}

// Refusal 6 of a length.
pub fn check_length(len: usize) -> Result<(), Refusal>
    ensures { MatchResult result (λ _. length_ok len ≡ true) (λ e. (length_ok len ≡ false) × (e ≡ Refusal.CascadeLength)) }
{
    if !length_ok(len) {
        return Err(Refusal::CascadeLength);
    }
    Ok(())
}

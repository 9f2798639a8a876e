// The gates' words, each laid down right before the one laid last, since the last gate found is the first of the cascade.
ghost use Rattle.std.specs.Prelude.{◌≡◌, ◌+◌, ◌≤◌, ◌<◌, length, drop, ◌∷◌};

// The words that were laid, from a place of a lent slice to its end; the places before it are free. It has a fact beside its fields and no model: behind
// a model, all that a lender knows of its words afterwards is how many they are.
#[derive(Drop)]
pub struct GateWords<'a> {
    start: usize,
    words: &'a mut [u64],
    ghost within: { start ≤ length words.now },
}

impl<'a> GateWords<'a> {
    // None yet.
    pub fn new(words: &'a mut [u64]) -> GateWords<'a>
        ensures same_reference { result.words.ghost_name ≡ words.entry.ghost_name }
        ensures none_laid { (result.start ≡ length words.old) × (result.words.now ≡ words.old) }
    {
        GateWords {
            start: words.len(),
            words,
        }
    }

    // One more word, before the others.
    pub fn lay(&mut self, word: u64)
        requires { 0 < self.old.start }
        ensures same_reference { self.new.words.ghost_name ≡ self.old.words.ghost_name }
        ensures place { (self.new.start + 1 ≡ self.old.start) × (length self.new.words.now ≡ length self.old.words.now) }
        ensures laid { drop self.new.start self.new.words.now ≡ word ∷ drop self.old.start self.old.words.now }
    {
        self.start -= 1;
        self.words[self.start] = word;
    }

    pub fn as_slice(&self) -> &[u64]
        ensures { result.now ≡ drop self.now.start self.now.words.now }
    {
        &self.words[self.start..]
    }
}

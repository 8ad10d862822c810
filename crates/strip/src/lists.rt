// The four lists of a strip as one value.
ghost use Rattle.std.specs.Prelude.{◌≡◌, ◌<◌, ℕ, length, slice_index};

// Two lists that are read and two that are filled. They have one length.
#[derive(Drop)]
pub(crate) struct Lists<'a> {
    pub(crate) first: &'a [u32],
    pub(crate) second: &'a [u32],
    pub(crate) answers: &'a mut [u32],
    pub(crate) refusals: &'a mut [u32],
    ghost seconds: { length second.now ≡ length first.now },
    ghost words: { length answers.now ≡ length first.now },
    ghost numbers: { length refusals.now ≡ length first.now },
}

impl Lists<'_> {
    ghost use Rattle.strip.specs.Lists.{Kept};

    // Fills every place with the word and the refusal that `place` gives for its two words. The loop goes
    // by places: after an iterator that lends the places of a list only the list's length is known.
    pub(crate) fn fill_by<F: Fn(u32, u32) -> (u32, u32)>(&mut self, place: F)
        requires { (i : ℕ) → i < length self.old.first.now → F.pre place (slice_index self.old.first.now i) (slice_index self.old.second.now i) }
        ensures places { (i : ℕ) → i < length self.old.first.now → F.post place (slice_index self.old.first.now i) (slice_index self.old.second.now i) (slice_index self.new.answers.now i, slice_index self.new.refusals.now i) }
        ensures same { Kept self.old self.new }
    {
        let first = self.first;
        let second = self.second;
        let answers = &mut *self.answers;
        let refusals = &mut *self.refusals;
        for i in 0..first.len() {
            let (word, number) = place(first[i], second[i]);
            answers[i] = word;
            refusals[i] = number;
        }
    }
}

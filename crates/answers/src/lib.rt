// Why the public jobs refuse a call, and the first check of most of them, of a buffer's length. specs/ gives the papers' number and place for each case.
#![tactic(auto)]

ghost use Rattle.std.specs.Prelude.{◌≡◌, ◌∷◌};
ghost use Rattle.integers.specs.Kit.{[]};
ghost use Rattle.answers.specs.Answer as spec;
ghost use Rattle.answers.specs.Answer.{accept, answered, returned};

// Why a call is refused.
#[derive(Clone, Copy, Debug, PartialEq, Eq)]
pub enum Refusal {
    // A buffer does not have the length that the job asks for.
    Lengths,
    // The sample at this index is out of range.
    Sample(usize),
    // b is not a width that there is a table for.
    Width,
    // The magnitudes of the element of this number sum above the limit.
    Magnitudes(usize),
    // No block in range has these elements.
    NoBlock,
    // A sheet does not begin with a head whose sizes are allowed; it begins at this place.
    Head(usize),
    // A sheet has this many words, and not as many as its sizes ask for; or the word at this index is of another kind than its place needs.
    Words(usize),
    // The end word, at this index, does not hold the number of blocks.
    End(usize),
    // There is no such orientation.
    Orientation,
    // The quantization step at this index of the list is out of range.
    Step(usize),
    // The coefficient at this index of a block, or in the word at this index of a sheet, is beyond its limit.
    Coefficient(usize),
}

impl Refusal {
    // The papers' number of a refusal.
    pub fn number(self) -> u32
        ensures { result ≡ (spec.refused self).number }
    {
        match self {
            Refusal::Lengths => 1,
            Refusal::Sample(_) => 2,
            Refusal::Width => 3,
            Refusal::Magnitudes(_) => 4,
            Refusal::NoBlock => 5,
            Refusal::Head(_) => 6,
            Refusal::Words(_) => 7,
            Refusal::End(_) => 8,
            Refusal::Orientation => 9,
            Refusal::Step(_) => 10,
            Refusal::Coefficient(_) => 11,
        }
    }

    // The place that it names.
    pub fn place(self) -> usize
        ensures { result ≡ (spec.refused self).place }
    {
        match self {
            Refusal::Lengths | Refusal::Width | Refusal::NoBlock | Refusal::Orientation => 0,
            Refusal::Sample(at)
            | Refusal::Magnitudes(at)
            | Refusal::Head(at)
            | Refusal::Words(at)
            | Refusal::End(at)
            | Refusal::Step(at)
            | Refusal::Coefficient(at) => at,
        }
    }
}

// Whether a buffer has the length that a job asks for.
pub fn sized(given: usize, asked: usize) -> Result<(), Refusal>
    ensures { returned result ≡ answered (spec.sized given asked ∷ []) accept }
{
    if given == asked {
        Ok(())
    } else {
        Err(Refusal::Lengths)
    }
}

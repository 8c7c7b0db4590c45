// Whether it is noted in which order places are settled.
ghost use Rattle.std.specs.Prelude.{◌≡◌, ℕ, ◌+◌, List, slice_set};
ghost use Rattle.distances.specs.Orders.{Room};

/// What becomes of places that are to be noted in lent memory.
// The memory is an argument and no value of the trait: of a `&mut` inside a type argument no proof could say what it holds at the end.
pub(crate) trait Order {
    // memory stands for these entries
    ghost holds: { List ℕ → List ℕ → Type 0 };

    /// Puts a place into an entry.
    fn note(memory: &mut [u16], at: usize, place: u16)
        requires { Room holds memory.old (at + 1) }
        ensures { (xs : List ℕ) → holds memory.old xs → holds memory.new (slice_set xs at place) };
}

/// Entries stand in the memory.
pub(crate) struct Noted;

impl Order for Noted {
    ghost holds = { λ memory xs. memory ≡ xs };

    fn note(memory: &mut [u16], at: usize, place: u16) {
        memory[at] = place;
    }
}

/// Nothing is noted, and no memory is needed.
pub(crate) struct Unnoted;

impl Order for Unnoted {
    ghost holds = { λ _ _. Unit {0} };

    fn note(_memory: &mut [u16], _at: usize, _place: u16) {}
}

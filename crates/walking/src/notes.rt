// What is noted of the places to which one comes on a walk: nothing, or each behind the one before.
ghost use Rattle.std.specs.Prelude.{◌≡◌, ℕ, ◌+◌, ◌≤◌, ⊤, ◌++◌, [], ◌∷◌, vec_len, vec_capacity};
ghost use Rattle.walking.specs.Noting.{Noted, vec_room_left};

/// Takes down places, one after the other.
pub(crate) trait Notes {
    // There is room for so many places more.
    ghost room: { Self → ℕ → Type 0 };

    // What is there before a place is noted, the place, and what is there then.
    ghost noted: { Self → ℕ → Self → Type 0 };

    fn note(&mut self, place: u16)
        requires { (k : ℕ) × room self.old (k + 1) }
        ensures { noted self.old place self.new };

    // A place takes the room of one.
    ghost leaves: { (before after : Self) (place k : ℕ) → room before (k + 1) → noted before place after → room after k };
}

/// Nothing is noted.
impl Notes for () {
    ghost room = { λ notes k. ⊤ };

    ghost noted = { λ before place after. ⊤ };

    ghost leaves = { λ before after place k room noted. tt };

    fn note(&mut self, _place: u16) {}
}

/// Each place is put behind the others, without a new allocation.
impl Notes for Vec<u16> {
    ghost room = { λ notes k. vec_len notes + k ≤ vec_capacity notes };

    ghost noted = { Noted };

    ghost leaves = { vec_room_left };

    fn note(&mut self, place: u16) {
        self.push_reserved(place);
    }
}

// What a post that takes no line means for the map of which it is made.
ghost use Rattle.std.specs.Prelude.{◌≡◌};
ghost use Rattle.posts.specs.Refusing.{refused_as};

use super::kinds::Refused;
use maps::kinds::Fault;

impl From<Refused> for Fault {
    ghost from_gives = { λ x y. y ≡ refused_as x };

    /// A full post has no room, and lines out of order are that of an input too.
    fn from(refused: Refused) -> Fault {
        match refused {
            Refused::Full => Fault::Room,
            Refused::Order => Fault::Order,
        }
    }
}

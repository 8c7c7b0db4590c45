// A search for a place in a list of what stands there by rising places.
ghost use Rattle.std.specs.Prelude.{◌≡◌, ℕ};
ghost use Rattle.maps.specs.Sought.{Sought};

/// What stands in a list by its place.
pub trait Placed {
    ghost stands: { Self → ℕ };

    /// The place by which it stands.
    fn place(&self) -> usize
        ensures { result ≡ stands self.now };
}

impl Placed for u16 {
    ghost stands = { λ place. place };

    fn place(&self) -> usize {
        usize::from(*self)
    }
}

/// Where the item for a place stands in a list in which places rise, `None` where there is none. At each step the items still in question
/// are halved, and it is done as soon as it meets the place. It refuses nothing; where places don't rise, it may miss one.
pub fn search<T: Placed>(items: &[T], place: usize) -> Option<usize>
    ensures { Sought T.Placed.stands items.now place result }
{
    let mut low: usize = 0;
    let mut high = items.len();
    // Down to one item and no further, so that a list of one takes no turn: many posts are that short.
    while high - low > 1 {
        let middle = low + (high - low) / 2;
        let here = items[middle].place();
        // Two tests and no match on `cmp`, for which the compiler makes an `Ordering` of the same two tests first.
        if here == place {
            return Some(middle);
        }
        if here < place {
            low = middle + 1;
        } else {
            high = middle;
        }
    }
    if low < high && items[low].place() == place {
        return Some(low);
    }
    None
}

// The rows of a place, and its ball: the places that are closer to it than its landmark is, the first so many of its order.
ghost use Rattle.std.specs.Prelude.{◌≡◌, ℕ, ◌<◌, ◌≤◌, All, length, slice_index};
ghost use Rattle.choosing.specs.Tables.{apart};
ghost use Rattle.choosing.specs.Turns.{BallAt, Balls, OuterAt, Outers};
ghost use Rattle.distances.specs.Orders.{in_order};

use super::turn::Ordered;

// Places are numbers here: the definitions speak of place v of all rows, and a row of its own would carry v and n all the same.
impl<'a> Ordered<'a> {
    /// How far all places are from `v`.
    pub(crate) fn dists(&self, v: usize) -> &'a [u32]
        requires { v < self.now.rows.n }
        ensures long { length result.now ≡ self.now.rows.n }
        ensures is { (u : ℕ) → u < self.now.rows.n → slice_index result.now u ≡ apart self.now.rows.n self.now.rows.dist.now v u }
    {
        let n = self.rows.n;
        &self.rows.dist[v * n..v * n + n]
    }

    /// The first so many places in the order of their distances from `v`.
    pub(crate) fn closest(&self, v: usize, ball: usize) -> &'a [u16]
        requires there { v < self.now.rows.n }
        requires few { ball ≤ self.now.rows.n }
        ensures long { length result.now ≡ ball }
        ensures inside { All (λ u. u < self.now.rows.n) result.now }
        ensures is { (j : ℕ) → j < ball → slice_index result.now j ≡ in_order self.now.rows.n self.now.rows.order.now v j }
    {
        let start = v * self.rows.n;
        &self.rows.order[start..start + ball]
    }

    /// How many places are closer to `v` than `to`, where it is known that at most `ball` are.
    fn shrink(&self, v: usize, to: u32, ball: usize) -> usize
        requires there { v < self.now.rows.n }
        requires outer { OuterAt self.now.rows.n self.now.rows.dist.now self.now.rows.order.now v to ball }
        ensures { BallAt self.now.rows.n self.now.rows.dist.now self.now.rows.order.now v to result }
    {
        let dists = self.dists(v);
        ball - self
            .closest(v, ball)
            .iter()
            .rev()
            .take_while(|u| dists[**u as usize] >= to)
            .count()
    }

    /// Makes all balls those of the landmarks, where none is too small. Landmarks only come closer, so over all turns each ball is gone through once.
    pub(crate) fn shrink_all(&self, away: &[u32], ball: &mut [u32])
        requires aways { length away.now ≡ self.now.rows.n }
        requires balls { length ball.old ≡ self.now.rows.n }
        requires outers { Outers self.now.rows.n self.now.rows.dist.now self.now.rows.order.now away.now ball.old }
        ensures { Balls self.now.rows.n self.now.rows.dist.now self.now.rows.order.now away.now ball.new }
    {
        // With an index into `away`, for the reason in `lower`.
        for (v, ball) in ball.iter_mut().enumerate() {
            *ball = self.shrink(v, away[v], *ball as usize) as u32;
        }
    }
}

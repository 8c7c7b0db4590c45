// Judging a place: how many lines would be above room if it were a landmark, by what the posts would lose.
ghost use Rattle.std.specs.Prelude.{◌≡◌, ℕ, ◌+◌, ◌*◌, ◌<◌, ◌≤◌, All, false, length, slice_index};
ghost use Rattle.choosing.specs.Choosing.{above, with_mark};
ghost use Rattle.choosing.specs.Tables.{Aways, apart, between01};
ghost use Rattle.landmarks.specs.Landmarks.{Marks};
ghost use Rattle.ways.specs.Map.{Map};
ghost use Rattle.ways.specs.Ways.{count_below};

use super::turn::Turn;

impl Turn<'_> {
    /// One more lost at each post that has `v` as near and is at `from` from it or farther: these are the last of the ball of `v`.
    fn fade(&self, v: usize, from: u32, lost: &mut [u32])
        requires there { v < self.now.map.rows.n }
        requires losts { length lost.old ≡ self.now.map.rows.n }
        requires low { All (λ x. x ≤ 512) lost.old }
        ensures { (u : ℕ) → u < self.now.map.rows.n → slice_index lost.new u ≡ slice_index lost.old u + between01 from (slice_index self.now.away.now v) (apart self.now.map.rows.n self.now.map.rows.dist.now v u) }
    {
        let dists = self.map.dists(v);
        let ball = self.map.closest(v, self.ball[v] as usize);
        for u in ball
            .iter()
            .rev()
            .take_while(|u| dists[**u as usize] >= from)
        {
            lost[*u as usize] += 1;
        }
    }

    /// The lines above room, if `c` were a landmark. Only places that are closer to `c` than to their landmarks change, and they are lost to the posts
    /// that are no closer to them than `c`. What was in `lost` is overwritten.
    pub(crate) fn judge(&self, c: usize, lost: &mut [u32]) -> u32
        requires there { c < self.now.map.rows.n }
        requires losts { length lost.old ≡ self.now.map.rows.n }
        ensures is { (z : Map) (l : Marks) → Aways z l self.now.map.rows.n self.now.map.rows.dist.now self.now.away.now → count_below self.now.map.rows.n l ≡ self.now.lines.count → l c ≡ false → result ≡ above z self.now.room (with_mark c l) }
        ensures small { result ≤ 1024 * self.now.map.rows.n }
    {
        lost.fill(0);
        // With an index into `away`: `fade` wants the place besides, so that a zip would be no plainer.
        for (v, from) in self.map.dists(c).iter().enumerate() {
            if *from < self.away[v] {
                self.fade(v, *from, lost);
            }
        }
        self.one_more().tally(lost, self.room)
    }
}

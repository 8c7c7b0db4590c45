// A bound for every place at once: how much it would take away at the most, if it were a landmark.
//
// A place that can't do better than one that was judged needs no judging. What a place takes away counts only at posts that have more lines
// than room; for those it is added up over all balls, in one pass over each: for a place of the ball, all such posts of the ball but those
// that are closer.
ghost use Rattle.std.specs.Prelude.{◌≡◌, ℕ, ◌+◌, ◌*◌, ◌<◌, ◌≤◌, length, slice_index};
ghost use Rattle.choosing.specs.Choosing.{sum_below};
ghost use Rattle.choosing.specs.Tables.{Bounds, Hots, loss_at, weight};
ghost use Rattle.distances.specs.Orders.{in_order};

use super::turn::Turn;

// What is written is lent by `pick`, each list by itself, since each is written by another of these functions and read by the next.
impl Turn<'_> {
    /// Marks the posts that would have more lines than room with one landmark more that takes nothing away: these count.
    pub(crate) fn heat(&self, hot: &mut [bool])
        requires { length hot.old ≡ self.now.map.rows.n }
        ensures { Hots self.now.map.rows.n self.now.lines.near.now self.now.lines.count self.now.room hot.new }
    {
        // With an index into `near`: of what is written through a zip of `iter_mut` a proof knows nothing afterwards.
        for (u, counts) in hot.iter_mut().enumerate() {
            *counts = self.lines.count + self.lines.near[u] > u32::from(self.room);
        }
    }

    /// How many of the posts that count are in the ball of `v`.
    fn hot_in_ball(&self, v: usize, hot: &[bool]) -> u32
        requires there { v < self.now.map.rows.n }
        requires hots { length hot.now ≡ self.now.map.rows.n }
        ensures is { result ≡ sum_below (slice_index self.now.ball.now v) (λ i. weight hot.now (in_order self.now.map.rows.n self.now.map.rows.order.now v i)) }
        ensures small { result ≤ 512 }
    {
        let ball = self.map.closest(v, self.ball[v] as usize);
        ball.iter().filter(|u| hot[**u as usize]).count() as u32
    }

    /// Adds to each place what it would take away of `v`, if it were a landmark: the posts that count in the ball of `v`, but for those that are closer.
    fn gather(&self, v: usize, hot: &[bool], total: &mut [u32])
        requires there { v < self.now.map.rows.n }
        requires hots { length hot.now ≡ self.now.map.rows.n }
        requires totals { length total.old ≡ self.now.map.rows.n }
        requires low { (c : ℕ) → c < self.now.map.rows.n → slice_index total.old c ≤ 512 * 512 }
        ensures least { (c : ℕ) → c < self.now.map.rows.n → slice_index total.old c + loss_at self.now.map.rows.n self.now.map.rows.dist.now self.now.away.now (weight hot.now) v c ≤ slice_index total.new c }
        ensures most { (c : ℕ) → c < self.now.map.rows.n → slice_index total.new c ≤ slice_index total.old c + 512 }
    {
        let dists = self.map.dists(v);
        let all = self.hot_in_ball(v, hot);
        let mut passed: u32 = 0;
        let mut closer: u32 = 0;
        let mut last: u32 = 0;
        for c in self.map.closest(v, self.ball[v] as usize) {
            let c = *c as usize;
            let far = dists[c];
            if far > last {
                closer = passed;
                last = far;
            }
            total[c] += all - closer;
            passed += u32::from(hot[c]);
        }
    }

    /// Writes for each place how much it would take away at the most, if it were a landmark, at the posts that count.
    pub(crate) fn bound(&self, hot: &[bool], total: &mut [u32])
        requires hots { length hot.now ≡ self.now.map.rows.n }
        requires totals { length total.old ≡ self.now.map.rows.n }
        ensures { Bounds self.now.map.rows.n self.now.map.rows.dist.now self.now.away.now hot.now total.new }
    {
        total.fill(0);
        for v in 0..self.map.rows.n {
            self.gather(v, hot, total);
        }
    }
}

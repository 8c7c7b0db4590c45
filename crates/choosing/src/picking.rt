// Picking the next landmark: the place after which the lines above room are fewest, the lowest among equals.
ghost use Rattle.std.specs.Prelude.{◌≡◌, ℕ, length};
ghost use Rattle.choosing.specs.Tables.{Aways};
ghost use Rattle.choosing.specs.Turns.{Open, Picked};
ghost use Rattle.landmarks.specs.Landmarks.{marks_in};
ghost use Rattle.ways.specs.Map.{Map};
ghost use Rattle.ways.specs.Ways.{count_below};

use super::turn::{Best, Turn};

impl Turn<'_> {
    /// Picks the next landmark in lent memory, which is overwritten. A place whose bound shows that it leaves no fewer lines than one before it isn't judged.
    fn pick_in(&self, hot: &mut [bool], total: &mut [u32], lost: &mut [u32]) -> Option<Best>
        requires hots { length hot.old ≡ self.now.map.rows.n }
        requires totals { length total.old ≡ self.now.map.rows.n }
        requires losts { length lost.old ≡ self.now.map.rows.n }
        ensures is { (z : Map) → Aways z (marks_in self.now.marks.now) self.now.map.rows.n self.now.map.rows.dist.now self.now.away.now → count_below self.now.map.rows.n (marks_in self.now.marks.now) ≡ self.now.lines.count → Picked z self.now.room (marks_in self.now.marks.now) result }
        ensures unmarked { Open self.now.marks.now self.now.map.rows.n result }
    {
        let most = self.one_more().above(self.room);
        self.heat(hot);
        self.bound(hot, total);
        // No `min_by_key`: which places are judged depends on the best so far.
        let mut best: Option<Best> = None;
        // With an index into `total`: `judge` wants the place besides, so that a zip would be no plainer.
        for (c, marked) in self.marks.iter().enumerate() {
            if !*marked && best.is_none_or(|best| most < best.lines.saturating_add(total[c])) {
                let lines = self.judge(c, lost);
                if best.is_none_or(|best| lines < best.lines) {
                    best = Some(Best { place: c, lines });
                }
            }
        }
        best
    }

    // Its memory, with a number for each place, has a fixed size, so that choosing allocates its answer alone. Two functions, so that the loop is
    // proved for slices of any length.
    /// The place that isn't a landmark after which the lines above room are fewest, the lowest among equals; none if all are landmarks.
    pub(crate) fn pick(&self) -> Option<Best>
        ensures is { (z : Map) → Aways z (marks_in self.now.marks.now) self.now.map.rows.n self.now.map.rows.dist.now self.now.away.now → count_below self.now.map.rows.n (marks_in self.now.marks.now) ≡ self.now.lines.count → Picked z self.now.room (marks_in self.now.marks.now) result }
        ensures unmarked { Open self.now.marks.now self.now.map.rows.n result }
    {
        let mut hot = [false; 512];
        let mut total = [0u32; 512];
        let mut lost = [0u32; 512];
        let n = self.map.rows.n;
        self.pick_in(&mut hot[0..n], &mut total[0..n], &mut lost[0..n])
    }
}

// Counting what is near and what is above room, post by post.
ghost use Rattle.std.specs.Prelude.{◌≡◌, ℕ, ◌+◌, ◌*◌, ◌<◌, ◌≤◌, All, min, length, slice_index};
ghost use Rattle.choosing.specs.Tables.{Nears, left_below, near_by, over_below};

use super::turn::{Lines, Ordered, Turn};

/// How many places of a row are closer than they are to their landmarks.
fn near_count(row: &[u32], away: &[u32]) -> u32
    requires long { length row.now ≡ length away.now }
    requires few { length away.now ≤ 512 }
    ensures { result ≡ near_by (length away.now) row.now away.now }
{
    // With a zip a whole choice on 512 places takes 0.30 s, with an index 0.15 s.
    let mut near: u32 = 0;
    for (v, far) in row.iter().enumerate() {
        if *far < away[v] {
            near += 1;
        }
    }
    near
}

/// How far each place is from its landmark with one landmark more, of which the row has the distances.
pub(crate) fn lower(row: &[u32], away: &mut [u32])
    requires { length row.now ≡ length away.old }
    ensures { (v : ℕ) → v < length away.old → slice_index away.new v ≡ min (slice_index away.old v) (slice_index row.now v) }
{
    // With an index into the row: of what is written through a zip of `iter_mut` a proof knows nothing afterwards.
    for (v, nearest) in away.iter_mut().enumerate() {
        *nearest = (*nearest).min(row[v]);
    }
}

impl Ordered<'_> {
    /// Writes how many places are near each place.
    pub(crate) fn count_near(&self, away: &[u32], near: &mut [u32])
        requires aways { length away.now ≡ self.now.rows.n }
        requires nears { length near.old ≡ self.now.rows.n }
        ensures is { Nears self.now.rows.n self.now.rows.dist.now away.now near.new }
        ensures few { All (λ x. x ≤ 512) near.new }
    {
        for (u, here) in near.iter_mut().enumerate() {
            *here = near_count(self.dists(u), away);
        }
    }
}

impl Lines<'_> {
    /// The lines above room in all.
    pub(crate) fn above(&self, room: u8) -> u32
        ensures is { result ≡ over_below self.now.near.now self.now.count room (length self.now.near.now) }
        ensures small { result ≤ 1024 * length self.now.near.now }
    {
        self.near
            .iter()
            .map(|near| (self.count + *near).saturating_sub(u32::from(room) + 1))
            .sum()
    }

    // Like `above`, which is this where nothing is lost: one function would want a list of zeros there.
    /// The lines above room that are left in all, where so many of what is near are lost.
    pub(crate) fn tally(&self, lost: &[u32], room: u8) -> u32
        requires long { length self.now.near.now ≡ length lost.now }
        requires losts { All (λ x. x ≤ 512) lost.now }
        ensures is { result ≡ left_below self.now.near.now lost.now self.now.count room (length lost.now) }
        ensures small { result ≤ 1024 * length lost.now }
    {
        self.near
            .iter()
            .zip(lost)
            .map(|(near, lost)| (self.count + *near).saturating_sub(*lost + (u32::from(room) + 1)))
            .sum()
    }
}

impl<'a> Turn<'a> {
    /// What the lines are counted from with one landmark more that takes nothing away.
    pub(crate) fn one_more(&self) -> Lines<'a>
        ensures near { result.near.now ≡ self.now.lines.near.now }
        ensures count { result.count ≡ self.now.lines.count + 1 }
    {
        Lines {
            near: self.lines.near,
            count: self.lines.count + 1,
        }
    }
}

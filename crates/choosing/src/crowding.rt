// The post with most lines.
ghost use Rattle.std.specs.Prelude.{◌<◌, length};
ghost use Rattle.choosing.specs.Chosen.{Fullest};

use super::kinds::Crowd;
use super::turn::Lines;

impl Lines<'_> {
    /// The post with most lines, the lowest among equals.
    pub(crate) fn fullest(&self) -> Crowd
        requires some { 0 < length self.now.near.now }
        requires counted { 0 < self.now.count }
        ensures { Fullest self.now.near.now self.now.count result }
    {
        // The library's `max_by_key` takes the last among equals, and with the order reversed it is no plainer.
        let mut post: usize = 0;
        for (u, here) in self.near.iter().enumerate() {
            if *here > self.near[post] {
                post = u;
            }
        }
        Crowd {
            post: post as u16,
            lines: (self.count + self.near[post] - 1) as u16,
            landmarks: self.count as u16,
        }
    }
}

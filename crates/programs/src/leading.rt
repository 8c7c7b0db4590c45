// A map that other documents follow in the same input: read, and said what follows.
use super::kinds::{Ended, Program};
use documents::map::map_at;
use maps::buf::RoadMapBuf;
use reading::reader::Reader;

impl Program<'_> {
    /// Says how large a map is.
    pub fn say_map(self, map: &RoadMapBuf) -> Result<(), Ended> {
        self.say(format_args!("map: {} places, {} roads", map.len(), map.roads().len()))
    }

    /// Reads the input that the words name, which begins with a map, and says what it read and how many bytes follow.
    pub fn show_leading_map(self, words: &[String]) -> Result<(), Ended> {
        let bytes = self.input(words)?;
        let mut from = Reader::new(&bytes);
        let map = map_at(self.rt.alloc(), &mut from).map_err(|stop| self.complain(stop))?;
        // Both lines in one write: whoever reads the first and goes away is no failure, and others that write to the same file can't come between.
        self.say(format_args!(
            "map: {} places, {} roads\nthen {} bytes",
            map.len(),
            map.roads().len(),
            from.left()
        ))
    }
}

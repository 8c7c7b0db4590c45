// All walks of a map by the posts and cards of given landmarks; or what stands on them.
use super::walk::Walk;
use cards::carding::card_of;
use distances::survey::Survey;
use landmarks::land::Land;
use maps::buf::RoadMapBuf;
use maps::kinds::Fault;
use posts::kinds::Post;
use posts::posting::posts_of;
use programs::kinds::{Ended, Program};
use std::alloc::Global;
use walking::noting::walk_noting;

// Which of `n` places a list such as `0,3,7` names as landmarks.
fn marks_of(program: Program<'_>, list: &str, n: usize) -> Result<Vec<bool>, Ended> {
    let mut marks = vec![in program.rt.alloc(); false; n].map_err(|_| program.no_memory())?;
    if list.is_empty() {
        return Err(program.complain("landmarks: there is none"));
    }
    for word in list.split(',') {
        let place = word
            .parse::<u16>()
            .map_err(|_| program.complain("landmarks: not a list of places"))?;
        let mark = marks
            .get_mut(usize::from(place))
            .ok_or_else(|| program.complain("landmarks: a place that isn't there"))?;
        *mark = true;
    }
    Ok(marks)
}

// The landmarks of a map, and the posts for them.
fn land_and_posts(
    heap: Global,
    map: RoadMapBuf,
    marks: Vec<bool>,
) -> Result<(Land, Vec<Post>), Fault> {
    let land = Land::new(heap, Survey::new(heap, map)?, marks)?;
    let posts = posts_of(heap, &land)?;
    Ok((land, posts))
}

/// A map with landmarks, and the posts for them.
#[derive(Drop)]
struct Tour<'a> {
    program: Program<'a>,
    land: Land,
    posts: Vec<Post>,
}

impl<'a> Tour<'a> {
    // Reads the map in some files, and makes posts for a list of landmarks.
    fn new(program: Program<'a>, list: &str, files: &[String]) -> Result<Tour<'a>, Ended> {
        let map = program.map(files)?;
        let marks = marks_of(program, list, usize::from(map.len()))?;
        let made = land_and_posts(program.rt.alloc(), map, marks);
        let (land, posts) = made.map_err(|fault| program.blame(fault))?;
        Ok(Tour {
            program,
            land,
            posts,
        })
    }

    fn len(&self) -> u16 {
        self.land.survey().map().len()
    }

    fn show_post(&self, u: usize, post: &Post) {
        let _ = println!(self.program.rt; "post {u}: {} lines", post.len());
        for line in post.lines() {
            let _ = println!(self.program.rt; "  {line}");
        }
    }

    // Shows what stands on the posts and on the cards. It is for a look: a line that can't be written is passed over.
    fn show_plan(&self) {
        for (u, post) in self.posts.iter().enumerate() {
            self.show_post(u, post);
        }
        for v in 0..self.len() {
            if let Some(card) = card_of(&self.land, v) {
                let _ = println!(self.program.rt; "{card}");
            }
        }
    }

    fn show_walk(&self, from: u16, to: u16) -> Result<(), Ended> {
        let Tour {
            program,
            land,
            posts,
        } = self;
        let card = card_of(land, to).ok_or_else(|| program.complain("a place that isn't there"))?;
        let mut passed = Vec::new(program.rt.alloc());
        let noted = walk_noting(&land.survey().map().map(), posts, card, from, &mut passed);
        let end = noted.map_err(|_| program.no_memory())?;
        program.say(Walk {
            from,
            to,
            passed: &passed,
            end,
        })
    }

    // Walks from each place to each other one.
    fn show_walks(&self) -> Result<(), Ended> {
        for from in 0..self.len() {
            for to in 0..self.len() {
                if from != to {
                    self.show_walk(from, to)?;
                }
            }
        }
        Ok(())
    }
}

/// What follows `--landmarks`: the list of landmarks, perhaps `--posts`, and the files of the map.
pub(crate) fn show_tour(program: Program<'_>, given: &[String]) -> Result<(), Ended> {
    match given {
        [list, option, files @ ..] if option.as_str() == "--posts" => {
            Tour::new(program, list.as_str(), files)?.show_plan();
            Ok(())
        }
        [list, files @ ..] => Tour::new(program, list.as_str(), files)?.show_walks(),
        [] => Err(program.complain("--landmarks wants a list of places")),
    }
}

//! Of which steps something was noted.

/// How many steps are named at most.
pub(crate) const MOST_NEWS: usize = 8;

/// The first steps of the classes of which something was noted, as far as there is room, and whether there were more.
#[derive(Clone, Copy)]
pub(crate) struct News {
    steps: [u32; MOST_NEWS],
    count: usize,
    more: bool,
}

impl News {
    /// Of none.
    pub(crate) fn none() -> News {
        News {
            steps: [0; MOST_NEWS],
            count: 0,
            more: false,
        }
    }

    /// Of the step too.
    pub(crate) fn note(&mut self, number: u32) {
        if self.count < MOST_NEWS {
            self.steps[self.count] = number;
            self.count += 1;
        } else {
            self.more = true;
        }
    }

    /// The step with this place among those of which something was noted.
    pub(crate) fn at(&self, place: usize) -> Option<u32> {
        if place < self.count && place < MOST_NEWS {
            Some(self.steps[place])
        } else {
            None
        }
    }

    /// Whether something was noted of others, too.
    pub(crate) fn are_more(&self) -> bool {
        self.more
    }
}

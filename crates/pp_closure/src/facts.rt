//! Facts on the values of steps, and how they are noted.

ghost use Rattle.std.specs.Prelude.{◌≡◌, ◌<◌, ◌≤ℤ◌, ℕ, pos, true, false, IfOk, length};
ghost use Rattle.pp_steps.specs.Meaning.{Values, bit, has_ctor};
ghost use Rattle.std.specs.Int.{w32};
ghost use Rattle.pp_word.specs.Wrapping.{IsWord};
ghost use Rattle.pp_closure.specs.Sums.{whole};
ghost use Rattle.pp_closure.specs.Facts.{HasMaker, HasShape, HasTruth, Holds, Tells};

use crate::NoMemory;
use crate::class::{Class, Shape, exceeds};
use crate::news::News;
use pp_list::{Items, at};
use std::alloc::Global;

/// How many names are followed from a step to the first one of its class.
const LONGEST_PATH: u32 = 64;

/// How often the bounds of a class are moved: they may come closer by one each time, so that it wouldn't end soon.
const MOST_MOVES: u32 = 12;

/// What is known of each step's value, by number; whether that is a contradiction; and of which steps something was
/// noted since this was last asked.
#[derive(Drop)]
pub(crate) struct Facts {
    pub classes: Items<Class>,
    pub refuted: bool,
    pub news: News,
}

impl Facts {
    /// Of so many steps nothing is known. The only error is want of memory.
    pub(crate) fn new(alloc: Global, count: u32) -> Result<Facts, NoMemory>
        ensures { IfOk result (λ f. (ρ : Values) → Holds ρ f) }
    {
        let mut classes = Items::new(alloc);
        for number in 0..count {
            classes.push(Class::of(number))?;
        }
        Ok(Facts {
            classes,
            refuted: false,
            news: News::none(),
        })
    }

    /// The same facts. The only error is want of memory.
    pub(crate) fn copy(&self, alloc: Global) -> Result<Facts, NoMemory>
        ensures { IfOk result (λ f. (ρ : Values) → Holds ρ self.now → Holds ρ f) }
    {
        let classes = Items::from_slice(alloc, self.classes.as_slice())?;
        Ok(Facts {
            classes,
            refuted: self.refuted,
            news: self.news,
        })
    }

    /// What is noted at the step.
    pub(crate) fn class(&self, number: u32) -> Class
        ensures { (ρ : Values) → Holds ρ self.now → Tells ρ result (ρ number) }
    {
        match at(self.classes.as_slice(), number as usize) {
            Some(class) => *class,
            None => Class::of(number),
        }
    }

    /// The first step of its class, which has the step's value.
    pub(crate) fn root(&self, number: u32) -> u32
        ensures { (ρ : Values) → Holds ρ self.now → ρ result ≡ ρ number }
    {
        let mut root = number;
        for _ in 0..LONGEST_PATH {
            let name = self.class(root).name;
            if name == root {
                break;
            }
            root = name;
        }
        root
    }

    /// What is known of the step's value.
    pub(crate) fn known(&self, number: u32) -> Class
        ensures { (ρ : Values) → Holds ρ self.now → Tells ρ result (ρ number) }
    {
        self.class(self.root(number))
    }

    /// The truth value that the step's value is, if that is known.
    pub(crate) fn truth(&self, number: u32) -> Option<bool>
        ensures { (ρ : Values) → Holds ρ self.now → HasTruth result (ρ number) }
    {
        self.known(number).truth
    }

    /// Whether the step's value is known to be this truth value.
    pub(crate) fn is(&self, number: u32, truth: bool) -> bool
        ensures { (ρ : Values) → Holds ρ self.now → result ≡ true → bit (ρ number) ≡ truth }
    {
        match self.truth(number) {
            Some(known) => known == truth,
            None => false,
        }
    }

    /// Whether two steps are known to have one value.
    pub(crate) fn same(&self, left: u32, right: u32) -> bool
        ensures { (ρ : Values) → Holds ρ self.now → result ≡ true → ρ left ≡ ρ right }
    {
        self.root(left) == self.root(right)
    }

    /// Notes what is known of the step's value, in place of what was noted.
    fn set(&mut self, number: u32, class: Class)
        ensures { (ρ : Values) → Holds ρ self.old → Tells ρ class (ρ number) → Holds ρ self.new }
    {
        if (number as usize) < self.classes.len() {
            self.classes.set(number as usize, class);
        }
    }

    /// Notes what is known of the step's value in place of what was noted, and that this is news.
    fn put(&mut self, number: u32, class: Class)
        ensures { (ρ : Values) → Holds ρ self.old → Tells ρ class (ρ number) → Holds ρ self.new }
    {
        self.set(number, class);
        self.news.note(number);
    }

    /// Of which steps something was noted since this was last asked.
    pub(crate) fn take_news(&mut self) -> News
        ensures { (ρ : Values) → Holds ρ self.old → Holds ρ self.new }
    {
        let news = self.news;
        self.news = News::none();
        news
    }

    /// Notes that the step's value is true, or that it is false.
    pub(crate) fn assume(&mut self, number: u32, truth: bool)
        ensures { (ρ : Values) → bit (ρ number) ≡ truth → Holds ρ self.old → Holds ρ self.new }
    {
        let root = self.root(number);
        let class = self.class(root);
        match class.truth {
            None => self.put(
                root,
                Class {
                    truth: Some(truth),
                    ..class
                },
            ),
            Some(known) => self.refuted = self.refuted || known != truth,
        }
    }

    /// Notes that the step's value has the constructor.
    pub(crate) fn shape(&mut self, number: u32, shape: Shape)
        ensures { (ρ : Values) → has_ctor shape.ctor shape.fields (ρ number) ≡ true
            → Holds ρ self.old → Holds ρ self.new }
    {
        let root = self.root(number);
        let class = self.class(root);
        match class.shape {
            None => self.put(
                root,
                Class {
                    shape: Some(shape),
                    ..class
                },
            ),
            Some(known) => self.refuted = self.refuted || !known.is(shape),
        }
    }

    /// Notes that the step is one that makes its value: a number, a sum, or a constructor with its fields.
    pub(crate) fn maker(&mut self, number: u32)
        ensures { (ρ : Values) → Holds ρ self.old → Holds ρ self.new }
    {
        let root = self.root(number);
        let class = self.class(root);
        if class.maker.is_none() {
            self.put(
                root,
                Class {
                    maker: Some(number),
                    ..class
                },
            );
        }
    }

    /// Notes that the number that the step's value is is at least this one.
    pub(crate) fn at_least(&mut self, number: u32, bound: i32)
        ensures { (ρ : Values) → bound ≤ℤ whole (ρ number) → Holds ρ self.old → Holds ρ self.new }
    {
        let root = self.root(number);
        let class = self.class(root);
        let low = Some(bound);
        if class.moves < MOST_MOVES && is_more(bound, class.low) {
            let moves = class.moves + 1;
            self.put(
                root,
                Class {
                    low,
                    moves,
                    ..class
                },
            );
        }
        self.refuted = self.refuted || exceeds(low, class.high);
    }

    /// Notes that the number that the step's value is is at most this one.
    pub(crate) fn at_most(&mut self, number: u32, bound: i32)
        ensures { (ρ : Values) → whole (ρ number) ≤ℤ bound → Holds ρ self.old → Holds ρ self.new }
    {
        let root = self.root(number);
        let class = self.class(root);
        let high = Some(bound);
        if class.moves < MOST_MOVES && is_less(bound, class.high) {
            let moves = class.moves + 1;
            self.put(
                root,
                Class {
                    high,
                    moves,
                    ..class
                },
            );
        }
        self.refuted = self.refuted || exceeds(class.low, high);
    }

    /// What the number that the step's value is is at least, where that is a word.
    pub(crate) fn low(&self, number: u32) -> i32
        ensures { (ρ : Values) → Holds ρ self.now → IsWord w32 (whole (ρ number)) → result ≤ℤ whole (ρ number) }
    {
        match self.known(number).low {
            Some(low) => low,
            None => i32::MIN,
        }
    }

    /// What the number that the step's value is is at most, where that is a word.
    pub(crate) fn high(&self, number: u32) -> i32
        ensures { (ρ : Values) → Holds ρ self.now → IsWord w32 (whole (ρ number)) → whole (ρ number) ≤ℤ result }
    {
        match self.known(number).high {
            Some(high) => high,
            None => i32::MAX,
        }
    }

    /// Whether the number that the step's value is is known to be 0.
    pub(crate) fn is_zero(&self, number: u32) -> bool
        ensures { (ρ : Values) → Holds ρ self.now → result ≡ true → whole (ρ number) ≡ pos 0 }
    {
        match self.known(number).number() {
            Some(n) => n == 0,
            None => false,
        }
    }

    /// Notes that two steps have one value.
    pub(crate) fn unite(&mut self, left: u32, right: u32)
        ensures { (ρ : Values) → ρ left ≡ ρ right → Holds ρ self.old → Holds ρ self.new }
    {
        let (one, other) = (self.root(left), self.root(right));
        if one < other {
            self.join(one, other);
        } else if other < one {
            self.join(other, one);
        }
    }

    /// The first of two steps, which have one value, stands for both.
    fn join(&mut self, first: u32, second: u32)
        ensures { (ρ : Values) → ρ first ≡ ρ second → Holds ρ self.old → Holds ρ self.new }
    {
        let (one, other) = (self.class(first), self.class(second));
        self.put(first, one.with(&other));
        self.set(
            second,
            Class {
                name: first,
                next: one.next,
                ..other
            },
        );
        self.refuted = self.refuted || one.excludes(&other);
    }

    /// Names the step by the first one of its class.
    pub(crate) fn shorten(&mut self, number: u32)
        ensures { (ρ : Values) → Holds ρ self.old → Holds ρ self.new }
    {
        let name = self.root(number);
        let class = self.class(number);
        if class.name != name {
            self.set(number, Class { name, ..class });
        }
    }
}

/// Whether the bound is more than the one that is known.
fn is_more(bound: i32, known: Option<i32>) -> bool {
    match known {
        Some(known) => bound > known,
        None => true,
    }
}

/// Whether the bound is less than the one that is known.
fn is_less(bound: i32, known: Option<i32>) -> bool {
    match known {
        Some(known) => bound < known,
        None => true,
    }
}

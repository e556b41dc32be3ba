//! Which steps have to be looked at again, and how much work is left.

ghost use Rattle.std.specs.Prelude.{◌≤◌, ◌^◌, length};

use crate::NoMemory;
use crate::facts::Facts;
use crate::news::{MOST_NEWS, News};
use pp_list::{Items, at};
use pp_prog::{BinaryOp, UnaryOp};
use pp_steps::{OpenCall, Step};
use std::alloc::Global;

/// The place of no user.
const NONE: usize = usize::MAX;

/// Over how many sums a change is followed: of a sum no more parts than these are looked at.
const DEEPEST_SUM: u32 = 32;

/// The work to let a step say what follows, and to let one that says whether two are equal: two numbers are compared as
/// sums, of up to 32 terms and 96 replacements.
const WORK_OF_LEARNING: u64 = 16;

const WORK_OF_COMPARING: u64 = 128;

/// How many members and users of a class are looked at to find chains of orders, and the work to look at one.
const MOST_USERS: usize = 64;

const WORK_OF_USER: u64 = 16;

/// Whether the step makes a number of others by sums and products.
fn is_sum(step: &Step) -> bool {
    matches!(
        step,
        Step::Unary(UnaryOp::Neg, _)
            | Step::Binary(BinaryOp::Add | BinaryOp::Sub | BinaryOp::Mul, _, _)
    )
}

/// Whether the step says whether two are equal.
fn is_equation(step: &Step) -> bool {
    matches!(step, Step::Binary(BinaryOp::Equal | BinaryOp::Differ, _, _))
}

/// A step that has another one as an operand, and where the next such step of this one is.
#[derive(Clone, Copy)]
struct User {
    step: u32,
    next: usize,
}

/// A step whose class has to be followed, over so many sums.
#[derive(Clone, Copy)]
struct Lead {
    step: u32,
    sums: u32,
}

/// Which steps are due; which are sums, and which equations; and by the number of each step, the steps that have it as
/// an operand. Any step may be due, or not: what follows from a step that is due and isn't looked at is missed, and
/// nothing else.
#[derive(Drop)]
pub(crate) struct Agenda {
    due: Items<bool>,
    sums: Items<bool>,
    equations: Items<bool>,
    first: Items<usize>,
    users: Items<User>,
    // by step: with which news its class was last followed, so that a class is followed once
    followed: Items<u32>,
    news: u32,
    // the classes that are followed with these news
    leads: Vec<Lead>,
    // how much work is left
    left: u64,
}

impl Agenda {
    /// All steps are due, and so much work may be done, where to mark a step as due is one unit. The only error is want of
    /// memory.
    pub(crate) fn new(alloc: Global, all: &[Step], left: u64) -> Result<Agenda, NoMemory>
        requires { length all.now ≤ 2 ^ 32 }
    {
        let mut agenda = Agenda {
            due: Items::new(alloc),
            sums: Items::new(alloc),
            equations: Items::new(alloc),
            first: Items::new(alloc),
            users: Items::new(alloc),
            followed: Items::new(alloc),
            news: 0,
            leads: Vec::new(alloc),
            left,
        };
        for step in all {
            agenda.due.push(true)?;
            agenda.sums.push(is_sum(step))?;
            agenda.equations.push(is_equation(step))?;
            agenda.first.push(NONE)?;
            agenda.followed.push(0)?;
        }
        for number in 0..all.len() {
            agenda.enter(number as u32, &all[number])?;
        }
        Ok(agenda)
    }

    /// Notes the step as one that has its operands. The only error is want of memory.
    fn enter(&mut self, number: u32, step: &Step) -> Result<(), NoMemory> {
        match step {
            Step::Not(a) | Step::Unary(_, a) => self.add(*a, number),
            Step::IsCtor(_, _, a) | Step::CtorField(_, _, a) => self.add(*a, number),
            Step::Both(a, b) | Step::Binary(_, a, b) => self.add_two(*a, *b, number),
            Step::Choose(test, a, b) => {
                self.add(*test, number)?;
                self.add_two(*a, *b, number)
            }
            Step::Construct(_, fields) => self.add_all(fields.as_slice(), number),
            Step::GoesDown(a, b) => self.add_two(*a, *b, number),
            Step::HasAnswer(call) => self.add_call(call, number),
            Step::Answer(call) => {
                self.add(number.saturating_sub(1), number)?;
                self.add_call(call, number)
            }
            _ => Ok(()),
        }
    }

    fn add_two(&mut self, a: u32, b: u32, user: u32) -> Result<(), NoMemory> {
        self.add(a, user)?;
        self.add(b, user)
    }

    /// What is known of an answer hangs on whether the call is reached, and on its arguments.
    fn add_call(&mut self, call: &OpenCall, user: u32) -> Result<(), NoMemory> {
        self.add(call.reach, user)?;
        self.add_all(call.args.as_slice(), user)
    }

    fn add_all(&mut self, operands: &[u32], user: u32) -> Result<(), NoMemory> {
        for operand in operands {
            self.add(*operand, user)?;
        }
        Ok(())
    }

    /// Notes that the step has this operand. The only error is want of memory.
    fn add(&mut self, operand: u32, user: u32) -> Result<(), NoMemory> {
        let place = self.users.len();
        let next = self.first_user(operand);
        self.users.push(User { step: user, next })?;
        if (operand as usize) < self.first.len() {
            self.first.set(operand as usize, place);
        }
        Ok(())
    }

    fn first_user(&self, operand: u32) -> usize {
        match at(self.first.as_slice(), operand as usize) {
            Some(first) => *first,
            None => NONE,
        }
    }

    /// Whether the step is due. If it is, it isn't any more, and it is looked at.
    pub(crate) fn take(&mut self, number: usize) -> bool {
        if number < self.due.len() && self.due.as_slice()[number] {
            self.due.set(number, false);
            let work = self.work_of(number);
            self.spend(work);
            return true;
        }
        false
    }

    fn work_of(&self, number: usize) -> u64 {
        match at(self.equations.as_slice(), number) {
            Some(true) => WORK_OF_COMPARING,
            _ => WORK_OF_LEARNING,
        }
    }

    /// No step is due.
    pub(crate) fn clear(&mut self) {
        for number in 0..self.due.len() {
            self.unmark(number);
        }
    }

    fn unmark(&mut self, number: usize) {
        if number < self.due.len() {
            self.due.set(number, false);
        }
    }

    /// All steps are gone over once, whether or not they are due.
    pub(crate) fn go_over(&mut self) {
        let steps = self.due.len() as u64;
        self.spend(steps / 2);
    }

    /// How much work may still be done.
    pub(crate) fn left(&self) -> u64 {
        self.left
    }

    /// Whether no work is left to do.
    pub(crate) fn is_spent(&self) -> bool {
        self.left == 0
    }

    /// So much work is done.
    pub(crate) fn spend(&mut self, work: u64) {
        self.left = self.left.saturating_sub(work);
    }

    /// The steps of the classes of which something was noted are due, and those that have one of them as an operand; of
    /// a sum that has one, also those that have the sum. The only error is want of memory.
    pub(crate) fn enter_news(&mut self, facts: &Facts, news: &News) -> Result<(), NoMemory> {
        if news.are_more() {
            self.mark_all();
            return Ok(());
        }
        self.news = self.news.wrapping_add(1);
        self.leads.clear();
        for place in 0..MOST_NEWS {
            match news.at(place) {
                Some(step) => {
                    let sums = DEEPEST_SUM;
                    self.leads.push(Lead { step, sums })?;
                }
                None => break,
            }
        }
        self.follow_leads(facts)
    }

    /// Follows the classes, and those that come in meanwhile.
    fn follow_leads(&mut self, facts: &Facts) -> Result<(), NoMemory> {
        for place in 0..usize::MAX {
            match at(self.leads.as_slice(), place) {
                Some(lead) => {
                    let lead = *lead;
                    self.follow(facts, lead)?;
                }
                None => break,
            }
        }
        Ok(())
    }

    /// The steps of the class are due, and those that have one of them as an operand, unless it was followed with these
    /// news.
    fn follow(&mut self, facts: &Facts, lead: Lead) -> Result<(), NoMemory> {
        let mut member = lead.step;
        for _ in 0..self.due.len() {
            if self.was_followed(member) {
                break;
            }
            self.note_followed(member);
            self.mark(member as usize);
            self.enter_users(member, lead.sums)?;
            member = facts.class(member).next;
        }
        Ok(())
    }

    /// The steps that have the step as an operand are due, and where one is a sum its class is followed.
    fn enter_users(&mut self, operand: u32, sums: u32) -> Result<(), NoMemory> {
        let mut place = self.first_user(operand);
        for _ in 0..self.users.len() {
            match at(self.users.as_slice(), place) {
                Some(user) => {
                    let User { step, next } = *user;
                    self.mark(step as usize);
                    if sums > 0 && self.is_sum(step) && !self.was_followed(step) {
                        self.leads.push(Lead {
                            step,
                            sums: sums - 1,
                        })?;
                    }
                    place = next;
                }
                None => break,
            }
        }
        Ok(())
    }

    /// The steps that have one of the step's class as an operand, as far as these are looked at, in place of others.
    /// The only error is want of memory.
    pub(crate) fn users_of(
        &mut self,
        facts: &Facts,
        step: u32,
        users: &mut Vec<u32>,
    ) -> Result<(), NoMemory> {
        users.clear();
        let mut member = step;
        let mut place = self.first_user(member);
        for _ in 0..MOST_USERS {
            self.spend(WORK_OF_USER);
            match at(self.users.as_slice(), place) {
                Some(user) => {
                    let User { step, next } = *user;
                    users.push(step)?;
                    place = next;
                }
                None => {
                    member = facts.class(member).next;
                    place = self.first_user(member);
                    if member == step {
                        break;
                    }
                }
            }
        }
        Ok(())
    }

    fn was_followed(&self, number: u32) -> bool {
        match at(self.followed.as_slice(), number as usize) {
            Some(news) => *news == self.news,
            None => true,
        }
    }

    fn note_followed(&mut self, number: u32) {
        if (number as usize) < self.followed.len() {
            self.followed.set(number as usize, self.news);
        }
    }

    fn is_sum(&self, number: u32) -> bool {
        match at(self.sums.as_slice(), number as usize) {
            Some(sum) => *sum,
            None => false,
        }
    }

    fn mark(&mut self, number: usize) {
        self.spend(1);
        if number < self.due.len() {
            self.due.set(number, true);
        }
    }

    fn mark_all(&mut self) {
        for number in 0..self.due.len() {
            self.mark(number);
        }
    }
}

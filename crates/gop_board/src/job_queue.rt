// Job numbers, handed out in order to several threads.
ghost use Rattle.std.specs.Prelude.{◌≡◌, ◌≤◌, ◌<◌, ℕ, IfNone, IfOk, IfSome, IsTrue, length, true};
ghost use Rattle.crossbeam_queue.specs.Passes.{IsPassOf, IsSamePass, view};
ghost use Rattle.gop_board.specs.Handing.{IsAlone, IsGiven, WasEmpty, after_pop, first_part, given, joined_with, other_part, pushed_one, times};

use coding_base::OutOfMemory;
use crossbeam_queue::protocol::{Join, Lesson, Outcome, Protocol, Split};
use crossbeam_queue::{Pass, RuledArrayQueue};
use std::alloc::Global;
use std::collections::LinkedList;
use std::marker::{Brand, Model};
use std::sync::Wait;

// What a pass did. No value of it is made.
pub struct Part {
    // It isn't joined into another.
    pub live: bool,
    // The number of jobs of its queue.
    pub jobs: u64,
    // It makes the pushes.
    pub pushes: bool,
    // How many pushes it made.
    pub pushed: u64,
    // The numbers that its own pops gave.
    pub popped: LinkedList<u64>,
    // Those that passes gave which were joined into it.
    pub joined: LinkedList<u64>,
    // A pass was ever split off from it.
    pub was_split: bool,
}

// The rule: what came out, followed by what the queue holds, is 0, 1, .. in order.
struct Rising;

impl Protocol<u64, Part> for Rising {
    ghost use Rattle.gop_board.specs.Handing.{InOrder, first_part};

    ghost holds = { InOrder };

    ghost first = { first_part 0 };
}

type Numbers = RuledArrayQueue<u64, Part, Rising>;

// The number of jobs, which a queue's first pass is told.
trait Jobs {
    ghost jobs: { ℕ };
}

impl Jobs for Brand {
    ghost jobs = { 0 };
}

// The first pass is told the number of jobs.
struct Told<J: Jobs>(std::marker::PhantomData<J>);

impl<J: Jobs> Split<Part> for Told<J> {
    ghost use Rattle.gop_board.specs.Handing.{first_part, spent_part};

    ghost left = { λ part. first_part J.jobs };

    ghost right = { λ part. spent_part };
}

// A pass is split off.
struct Parts;

impl Split<Part> for Parts {
    ghost use Rattle.std.specs.Prelude.{true};
    ghost use Rattle.gop_board.specs.Handing.{other_part};

    ghost left = { λ part. record part { was_split = true } };

    ghost right = { λ part. other_part part.jobs };
}

// A pass is joined into another.
impl Join<Part> for Parts {
    ghost use Rattle.gop_board.specs.Handing.{joined_with, spent_part};

    ghost both = { joined_with };

    ghost spent = { spent_part };
}

// A number is put.
struct Puts;

impl Outcome<u64, Part> for Puts {
    ghost use Rattle.std.specs.Prelude.{◌≡◌};
    ghost use Rattle.gop_board.specs.Handing.{pushed_one};

    ghost then = { λ part number after. after ≡ pushed_one part };
}

// The queue holds no more than was put.
impl Lesson<u64, Part> for Puts {
    ghost use Rattle.std.specs.Prelude.{◌≤◌, length};

    ghost fact = { λ part items. length items ≤ part.pushed };
}

// A number is taken.
struct Takes;

impl Outcome<u64, Part> for Takes {
    ghost use Rattle.std.specs.Prelude.{◌≡◌};
    ghost use Rattle.gop_board.specs.Handing.{IsGiven, popped_one};

    ghost then = { λ part number after.
        (after ≡ popped_one part number) × IsGiven part.jobs part number };
}

impl Lesson<u64, Part> for Takes {
    ghost use Rattle.gop_board.specs.Handing.{IsHeld};

    ghost fact = { λ part items. IsHeld part.jobs part items };
}

/// A queue of job numbers that threads share. Contracts see which queue it is, and the number of jobs that it was made for.
#[derive(Drop)]
pub struct JobQueue {
    numbers: Numbers,
}

impl Model for JobQueue {
    ghost use Rattle.crossbeam_queue.specs.Passes.{ruled_capacity};
    ghost use Rattle.gop_board.specs.Handing.{Queue};

    ghost Value = { Queue };

    ghost view = { λ q. record {
      id = q.numbers.table.shared.table_id;
      jobs = ruled_capacity q.numbers;
    } };
}

/// What a thread pops and pushes with. Contracts see the queue that it belongs to; whether it makes the pushes, and how many it
/// made; the numbers that its own pops gave; whether a pass was ever split off from it; and how many of its pops answered None,
/// a count that stops at its last value.
#[derive(Drop)]
pub struct JobPass {
    pass: Pass<u64, Part>,
    pushed: u64,
    misses: u64,
}

impl Model for JobPass {
    ghost use Rattle.gop_board.specs.Handing.{Passing};

    ghost Value = { Passing };

    ghost use Rattle.gop_board.specs.PassFields.{IsKept, passing_of};

    ghost view = { passing_of };

    ghost invariant = { IsKept };
}

impl JobQueue {
    /// A queue with room for the numbers of so many jobs, at least one, and the pass that makes the pushes.
    pub fn new(alloc: Global, jobs: u64) -> Result<(JobQueue, JobPass), OutOfMemory>
        requires { 1 ≤ jobs }
        ensures jobs { IfOk result (λ made. made.0.jobs ≡ jobs) }
        ensures pass { IfOk result (λ made.
            made.1 ≡ record { queue = made.0; part = first_part jobs; misses = 0 }) }
    {
        let (numbers, mut pass) = Numbers::ruled(alloc, jobs as usize)?;
        tell::<Brand>(&numbers, &mut pass, jobs);
        Ok((
            JobQueue { numbers },
            JobPass {
                pass,
                pushed: 0,
                misses: 0,
            },
        ))
    }

    /// Puts the next number, the first of which is 0. Only the pass may do so that makes the pushes, and only while they are
    /// fewer than the jobs. The answer is true, since the queue has room for all.
    pub fn push<R: Wait>(&self, rt: &R, pass: &mut JobPass) -> bool
        requires belongs { pass.old.queue ≡ self.now }
        requires pushes { pass.old.part.pushes ≡ true }
        requires more { pass.old.part.pushed < self.now.jobs }
        ensures pass { pass.new ≡ record pass.old { part = pushed_one pass.old.part } }
        ensures answer { IsTrue result }
    {
        match self
            .numbers
            .push_as::<Puts, R>(rt, &mut pass.pass, pass.pushed)
        {
            Ok(()) => {
                pass.pushed += 1;
                true
            }
            Err(_) => false,
        }
    }

    /// Takes the number at the front, which is below the number of jobs. None comes only where the queue was empty at one
    /// moment of the call; for the pass that `new` gave, while none was split off from it, only where it took all that it put.
    pub fn pop<R: Wait>(&self, rt: &R, pass: &mut JobPass) -> Option<u64>
        requires { pass.old.queue ≡ self.now }
        ensures pass { pass.new ≡ after_pop pass.old result }
        ensures given { IfSome result (IsGiven self.now.jobs pass.old.part) }
        ensures none { IfNone result (WasEmpty self.now.jobs pass.old.part) }
        ensures all { IfNone result
            (IsAlone pass.old.part → length pass.old.part.popped ≡ pass.old.part.pushed) }
    {
        let found = self.numbers.pop_as::<Takes, R>(rt, &mut pass.pass);
        if found.is_none() && pass.misses < u64::MAX {
            pass.misses += 1;
        }
        found
    }

    /// Splits a pass off, for another thread. It makes no pushes.
    pub fn another(&self, pass: &mut JobPass) -> JobPass
        requires { pass.old.queue ≡ self.now }
        ensures pass { pass.new
            ≡ record pass.old { part = record pass.old.part { was_split = true } } }
        ensures other { result
            ≡ record { queue = self.now; part = other_part self.now.jobs; misses = 0 } }
    {
        JobPass {
            pass: self.numbers.another::<Parts>(&mut pass.pass),
            pushed: 0,
            misses: 0,
        }
    }

    /// Joins a pass into another. No number was given twice to the passes that it consists of then.
    pub fn absorb(&self, pass: &mut JobPass, other: JobPass)
        requires belongs { pass.old.queue ≡ self.now }
        requires other { other.queue ≡ self.now }
        ensures pass { pass.new
            ≡ record pass.old { part = joined_with pass.old.part other.part } }
        ensures once { (number : ℕ) → times number (given pass.new.part) ≤ 1 }
    {
        self.numbers.absorb::<Parts>(&mut pass.pass, other.pass);
        self.numbers.learn_as::<Takes>(&mut pass.pass);
    }
}

// Tells the first pass the number of jobs.
fn tell<J: Jobs>(numbers: &Numbers, pass: &mut Pass<u64, Part>, jobs: u64)
    requires belongs { IsPassOf numbers.now pass.old }
    requires first { view pass.old ≡ first_part 0 }
    requires jobs { J.jobs ≡ jobs }
    ensures same { IsSamePass pass.old pass.new }
    ensures told { view pass.new ≡ first_part jobs }
{
    let _ = numbers.another::<Told<J>>(pass);
}

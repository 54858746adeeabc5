//! Job numbers, which a queue hands out to threads.
ghost use Rattle.std.specs.Prelude.{◌≡◌, IfOk};

use coding_base::OutOfMemory;
use gop_board::{JobPass, JobQueue};
use std::alloc::Global;
use std::sync::Wait;
use std::test::Fail;
use std::thread;

/// What pops gave, `-` for nothing.
fn told(alloc: Global, popped: &[Option<u64>]) -> Result<String, OutOfMemory> {
    let mut text = String::new(alloc);
    for number in popped {
        match number {
            Some(number) => write!(text, "{number} ")?,
            None => text.push_str("- ")?,
        }
    }
    Ok(text)
}

#[test]
fn numbers_come_out_in_order(rt: HostRuntime) -> Result<(), Fail> {
    let (queue, mut pass) = JobQueue::new(rt.alloc(), 3)?;
    let before = queue.pop(&rt, &mut pass);
    let first = queue.push(&rt, &mut pass);
    let second = queue.push(&rt, &mut pass);
    let one = queue.pop(&rt, &mut pass);
    let third = queue.push(&rt, &mut pass);
    let mut other = queue.another(&mut pass);
    let two = queue.pop(&rt, &mut other);
    let three = queue.pop(&rt, &mut pass);
    let none = queue.pop(&rt, &mut other);
    queue.absorb(&mut pass, other);
    let last = queue.pop(&rt, &mut pass);
    assert!(rt; first && second && third);
    let popped = told(rt.alloc(), &[before, one, two, three, none, last])?;
    assert_eq!(rt; popped.as_str(), "- 0 1 2 - - ");
    Ok(())
}

/// Pops until there is nothing.
fn pop_all<R: Wait>(
    rt: &R,
    alloc: Global,
    queue: &JobQueue,
    mut pass: JobPass,
) -> Result<(JobPass, Vec<Option<u64>>), OutOfMemory>
    requires { pass.queue ≡ queue.now }
    ensures { IfOk result (λ popped. popped.0.queue ≡ queue.now) }
{
    let mut numbers = Vec::new(alloc);
    for _ in rt.forever() {
        match queue.pop(rt, &mut pass) {
            Some(number) => numbers.push(Some(number))?,
            None => break,
        }
    }
    Ok((pass, numbers))
}

#[test]
fn two_threads_take_each_number_once(rt: HostRuntime) -> Result<(), Fail> {
    let alloc = rt.alloc();
    let (queue, mut pass) = JobQueue::new(alloc, 4)?;
    let first = queue.push(&rt, &mut pass);
    let second = queue.push(&rt, &mut pass);
    let third = queue.push(&rt, &mut pass);
    let fourth = queue.push(&rt, &mut pass);
    assert!(rt; first && second && third && fourth);
    let one = queue.another(&mut pass);
    let two = queue.another(&mut pass);
    let line = &queue;
    let (one, two) = thread::join(
        &rt,
        move || -> Result<(JobPass, Vec<Option<u64>>), OutOfMemory>
            requires { one.queue ≡ line.now }
            ensures { IfOk result (λ popped. popped.0.queue ≡ line.entry.now) }
        { pop_all(&rt, alloc, line, one) },
        move || -> Result<(JobPass, Vec<Option<u64>>), OutOfMemory>
            requires { two.queue ≡ line.now }
            ensures { IfOk result (λ popped. popped.0.queue ≡ line.entry.now) }
        { pop_all(&rt, alloc, line, two) },
    );
    let (one, mut numbers) = one?;
    let (two, others) = two?;
    queue.absorb(&mut pass, one);
    queue.absorb(&mut pass, two);
    let last = queue.pop(&rt, &mut pass);
    numbers.extend_from_slice(&others)?;
    numbers.sort()?;
    numbers.push(last)?;
    assert_eq!(rt; told(alloc, &numbers)?.as_str(), "0 1 2 3 - ");
    Ok(())
}

//! Queues, call by call.

use coding_base::OutOfMemory;
use session_channels::{LocalQueue, Put, PutError, SharedQueue, Take, TakeError};
use std::alloc::Global;
use std::test::Fail;

/// A call of a queue.
#[derive(Clone, Copy)]
enum Call {
    TryPut(u16),
    Put(u16),
    TryTake,
    Take,
    PutLen,
    TakeLen,
    ClosePut,
    CloseTake,
}

use Call::{ClosePut, CloseTake, Put as PutNow, PutLen, Take as TakeNow, TakeLen, TryPut, TryTake};

fn put_answer(alloc: Global, answer: Result<(), PutError<u16>>) -> Result<String, OutOfMemory> {
    Ok(match answer {
        Ok(()) => format!(in alloc; "put")?,
        Err(PutError::Full(message)) => format!(in alloc; "full {message}")?,
        Err(PutError::Closed(message)) => format!(in alloc; "closed {message}")?,
        Err(PutError::OutOfMemory(message)) => format!(in alloc; "no memory {message}")?,
    })
}

fn take_answer(alloc: Global, answer: Result<u16, TakeError>) -> Result<String, OutOfMemory> {
    Ok(match answer {
        Ok(message) => format!(in alloc; "took {message}")?,
        Err(TakeError::Empty) => format!(in alloc; "empty")?,
        Err(TakeError::Closed) => format!(in alloc; "ended")?,
    })
}

fn answer<Q: Put<u16> + Take<u16>>(
    alloc: Global,
    queue: &mut Q,
    call: Call,
) -> Result<String, OutOfMemory> {
    match call {
        TryPut(message) => put_answer(alloc, queue.try_put(message)),
        PutNow(message) => put_answer(alloc, queue.put(message)),
        TryTake => take_answer(alloc, queue.try_take()),
        TakeNow => take_answer(alloc, queue.take()),
        PutLen => Ok(format!(in alloc; "{}", Put::len(queue))?),
        TakeLen => Ok(format!(in alloc; "{}", Take::len(queue))?),
        ClosePut => {
            Put::close(queue);
            Ok(format!(in alloc; "close")?)
        }
        CloseTake => {
            Take::close(queue);
            Ok(format!(in alloc; "close")?)
        }
    }
}

/// Makes the calls of one handle, and tells the answers.
fn answers<Q: Put<u16> + Take<u16>>(
    alloc: Global,
    queue: &mut Q,
    calls: &[Call],
) -> Result<String, OutOfMemory> {
    let mut text = String::new(alloc);
    for call in calls {
        text.push_str(&answer(alloc, queue, *call)?)?;
        text.push_str(", ")?;
    }
    Ok(text)
}

#[test]
fn a_queue_in_memory(rt: HostRuntime) -> Result<(), Fail> {
    let alloc = rt.alloc();
    let rows: [(Option<usize>, &[Call], &str); 2] = [
        (
            Some(2),
            &[
                TryPut(1),
                PutNow(2),
                TryPut(3),
                PutNow(3),
                PutLen,
                TakeLen,
                TryTake,
                TakeNow,
                TryTake,
                TakeNow,
                PutNow(4),
                ClosePut,
                CloseTake,
                TryPut(5),
                TryTake,
                TryTake,
            ],
            "put, put, full 3, full 3, 2, 2, took 1, took 2, empty, ended, put, close, close, closed 5, took 4, ended, ",
        ),
        (
            None,
            &[
                TryPut(1),
                PutNow(2),
                PutLen,
                ClosePut,
                PutNow(3),
                TryTake,
                TakeNow,
                TakeNow,
                TryTake,
            ],
            "put, put, 2, close, closed 3, took 1, took 2, ended, ended, ",
        ),
    ];
    for (capacity, calls, wanted) in &rows {
        let mut queue = LocalQueue::new(alloc, *capacity);
        let told = answers(alloc, &mut queue, calls)?;
        assert_eq!(rt; told.as_str(), *wanted);
    }
    Ok(())
}

/// The calls that two handles of one queue make in turn, on one thread. None need wait.
const IN_TURN: [(&[Call], &str); 4] = [
    (&[TryPut(1), TryPut(2), TryPut(3)], "put, put, full 3, "),
    (
        &[TryTake, TryTake, TryTake, TryPut(4)],
        "took 1, took 2, empty, put, ",
    ),
    (&[ClosePut], "close, "),
    (&[TryPut(5), TryTake, TryTake], "closed 5, took 4, ended, "),
];

#[test]
fn two_handles_of_a_shared_queue(rt: HostRuntime) -> Result<(), Fail> {
    let alloc = rt.alloc();
    let mut this = SharedQueue::new(&rt, alloc, Some(2))?;
    let mut other = this.another()?;
    for (calls, wanted) in &IN_TURN {
        let told = answers(alloc, &mut this, calls)?;
        assert_eq!(rt; told.as_str(), *wanted);
        std::mem::swap(&mut this, &mut other);
    }
    Ok(())
}

#[test]
fn one_handle_of_a_shared_queue(rt: HostRuntime) -> Result<(), Fail> {
    let alloc = rt.alloc();
    let mut queue = SharedQueue::new(&rt, alloc, None)?;
    let calls = [
        PutNow(1),
        PutNow(2),
        PutLen,
        TakeLen,
        TakeNow,
        CloseTake,
        PutNow(3),
        TakeNow,
        TakeNow,
    ];
    assert_eq!(rt;
        answers(alloc, &mut queue, &calls)?.as_str(),
        "put, put, 2, 2, took 1, close, closed 3, took 2, ended, "
    );
    Ok(())
}

//! The second judge: what each thread, queue and fence knows, and what was done to words.

use crate::happenings::{Deed, Happening, Piece, Work};
use crate::known::{Doer, Known};
use crate::scopes::{Done, Scope};
use crate::words::{Doing, Stretch, Sub, Word};
use d3d_judge::{Rule, Verdict};
use dx_base::Memory;
use std::alloc::Global;

/// Work that a queue was given and has not completed.
#[derive(Drop)]
struct Called {
    queue: u32,
    work: Work,
    known: Known,
    /// Of a wait: what the update knows that marked it, once there is one.
    mark: Option<Known>,
}

/// A fence: its value, and what its current update knows.
#[derive(Drop)]
struct Fence {
    value: u64,
    known: Known,
}

/// A thread: what it knows, and the wait it is in, with what the update knows that marked it.
#[derive(Drop)]
struct Thread {
    known: Known,
    fence: u32,
    value: u64,
    waits: bool,
    mark: Option<Known>,
}

/// The second judge.
#[derive(Drop)]
pub struct Second {
    alloc: Global,
    threads: Vec<Thread>,
    queues: Vec<Known>,
    fences: Vec<Fence>,
    called: Vec<Called>,
    /// How many calls each thread made, and how many operations each queue completed.
    counts: Known,
    done: Vec<Done>,
    subs: Vec<Sub>,
    lost: Vec<Word>,
    events: u64,
}

impl Second {
    /// The judge before any event: of that many threads and queues, fences with these values, and these
    /// subresources. Textures begin with lost words.
    pub fn new(
        alloc: Global,
        threads: u32,
        queues: u32,
        values: &[u64],
        subs: &[Sub],
    ) -> Result<Second, Memory> {
        let mut second = Second {
            alloc,
            threads: Vec::new(alloc),
            queues: Vec::new(alloc),
            fences: Vec::new(alloc),
            called: Vec::new(alloc),
            counts: Known::nothing(alloc),
            done: Vec::new(alloc),
            subs: Vec::new(alloc),
            lost: Vec::new(alloc),
            events: 0,
        };
        match second.fill(threads, queues, values, subs) {
            Ok(()) => Ok(second),
            Err(memory) => {
                drop(second);
                Err(memory)
            }
        }
    }

    fn fill(
        &mut self,
        threads: u32,
        queues: u32,
        values: &[u64],
        subs: &[Sub],
    ) -> Result<(), Memory> {
        for _thread in 0..threads {
            self.threads.push(Thread {
                known: Known::nothing(self.alloc),
                fence: 0,
                value: 0,
                waits: false,
                mark: None,
            })?;
        }
        for _queue in 0..queues {
            self.queues.push(Known::nothing(self.alloc))?;
        }
        for value in values {
            let known = Known::nothing(self.alloc);
            self.fences.push(Fence {
                value: *value,
                known,
            })?;
        }
        for sub in subs {
            self.add_sub(sub)?;
        }
        Ok(())
    }

    fn add_sub(&mut self, sub: &Sub) -> Result<(), Memory> {
        self.subs.push(*sub)?;
        let whole = sub.whole();
        if sub.texture {
            for at in 0..whole.words {
                self.lost.push(whole.word(at))?;
            }
        }
        Ok(())
    }

    /// One event more, while none broke a rule.
    pub fn feed(&mut self, happening: Happening) -> Result<Verdict, Memory> {
        self.events = self.events.saturating_add(1);
        let broken = match happening {
            Happening::Calls(thread, deed) => self.call(thread, deed)?,
            Happening::Wakes(thread) => {
                self.wake(thread)?;
                None
            }
            Happening::Completes(queue) => self.complete(queue)?,
        };
        Ok(match broken {
            Some(rule) => Verdict::Broken(rule, self.events),
            None => Verdict::Clean,
        })
    }

    fn wake(&mut self, thread: u32) -> Result<(), Memory> {
        if let Some(thread) = self.threads.get_mut(thread as usize) {
            if let Some(mark) = &thread.mark {
                thread.known.join(mark)?;
            }
            thread.mark = None;
            thread.waits = false;
        }
        Ok(())
    }

    /// A thread's call raises its own number first.
    fn call(&mut self, thread: u32, deed: Deed) -> Result<Option<Rule>, Memory> {
        let number = self.counts.number(false, thread).saturating_add(1);
        self.counts.learn(false, thread, number)?;
        if let Some(thread_known) = self.threads.get_mut(thread as usize) {
            thread_known.known.learn(false, thread, number)?;
        }
        let known = self.thread_knows(thread)?;
        self.act(thread, Doer::Call(thread, number), known, deed)
    }

    fn thread_knows(&self, thread: u32) -> Result<Known, Memory> {
        match self.threads.get(thread as usize) {
            Some(thread) => thread.known.copied(),
            None => Ok(Known::nothing(self.alloc)),
        }
    }

    fn act(
        &mut self,
        thread: u32,
        doer: Doer,
        known: Known,
        deed: Deed,
    ) -> Result<Option<Rule>, Memory> {
        match deed {
            Deed::Gives(queue, work) => self.give(queue, work, known)?,
            Deed::Sets(fence, value) => self.update(fence, value, &known)?,
            Deed::WaitsFor(fence, value) => self.begin_wait(thread, fence, value)?,
            Deed::Asks(fence) => self.ask(thread, fence)?,
            Deed::Stores(stretch) => return self.host(doer, &known, Doing::Write, stretch),
            Deed::Loads(stretch) => return self.host(doer, &known, Doing::Read, stretch),
            Deed::Nothing => {}
        }
        Ok(None)
    }

    /// What the update knows that a fence has now, where its value is at least that.
    fn marked_now(&self, fence: u32, value: u64) -> Result<Option<Known>, Memory> {
        match self.fences.get(fence as usize) {
            Some(fence) => {
                if value <= fence.value {
                    Ok(Some(fence.known.copied()?))
                } else {
                    Ok(None)
                }
            }
            None => Ok(None),
        }
    }

    /// The operation has the clock of its call.
    fn give(&mut self, queue: u32, work: Work, known: Known) -> Result<(), Memory> {
        let mark = match work {
            Work::Waits(fence, value) => self.marked_now(fence, value)?,
            _ => None,
        };
        self.called.push(Called {
            queue,
            work,
            known,
            mark,
        })?;
        Ok(())
    }

    fn begin_wait(&mut self, thread: u32, fence: u32, value: u64) -> Result<(), Memory> {
        let mark = self.marked_now(fence, value)?;
        if let Some(thread) = self.threads.get_mut(thread as usize) {
            thread.fence = fence;
            thread.value = value;
            thread.waits = true;
            thread.mark = mark;
        }
        Ok(())
    }

    /// `value` joins the current update's clock into the thread's.
    fn ask(&mut self, thread: u32, fence: u32) -> Result<(), Memory> {
        if let Some(thread) = self.threads.get_mut(thread as usize) {
            if let Some(fence) = self.fences.get(fence as usize) {
                thread.known.join(&fence.known)?;
            }
        }
        Ok(())
    }

    /// A fence gets a value, with what its update knows; it marks the waits that it meets.
    fn update(&mut self, fence: u32, value: u64, known: &Known) -> Result<(), Memory> {
        if let Some(fence) = self.fences.get_mut(fence as usize) {
            fence.value = value;
            fence.known = known.copied()?;
        }
        for thread in self.threads.iter_mut() {
            if thread.waits
                && thread.fence == fence
                && thread.value <= value
                && thread.mark.is_none()
            {
                thread.mark = Some(known.copied()?);
            }
        }
        for called in self.called.iter_mut() {
            if called.waits_for(fence, value) && called.mark.is_none() {
                called.mark = Some(known.copied()?);
            }
        }
        Ok(())
    }

    /// B10 of a host access.
    fn host(
        &mut self,
        doer: Doer,
        known: &Known,
        doing: Doing,
        stretch: Stretch,
    ) -> Result<Option<Rule>, Memory> {
        let mut broken = None;
        for at in 0..stretch.words {
            let word = stretch.word(at);
            for other in &self.done {
                if other.word == word && other.doing.meets(doing) && !known.knows(other.doer) {
                    broken = Some(Rule::B10);
                }
            }
        }
        for at in 0..stretch.words {
            let word = stretch.word(at);
            self.done.push(Done { doer, word, doing })?;
        }
        Ok(broken)
    }

    /// A queue's oldest work completes.
    fn complete(&mut self, queue: u32) -> Result<Option<Rule>, Memory> {
        match self.oldest(queue) {
            Some(called) => self.complete_called(queue, called),
            None => Ok(None),
        }
    }

    /// Takes the oldest work of a queue.
    fn oldest(&mut self, queue: u32) -> Option<Called> {
        let mut found = None;
        for (at, called) in self.called.iter().enumerate() {
            if called.queue == queue && found.is_none() {
                found = Some(at);
            }
        }
        match found {
            Some(at) => {
                if at < self.called.len() {
                    Some(self.called.remove(at))
                } else {
                    None
                }
            }
            None => None,
        }
    }

    /// The operation's clock is joined with the queue's, and that of a wait with its mark's.
    fn complete_called(&mut self, queue: u32, called: Called) -> Result<Option<Rule>, Memory> {
        let number = self.counts.number(true, queue).saturating_add(1);
        let Called {
            mut known,
            work,
            mark,
            ..
        } = called;
        self.join_before(queue, &mut known, &mark)?;
        let broken = match &work {
            Work::Executes(pieces) => self.execute(queue, number, known.copied()?, pieces)?,
            _ => None,
        };
        known.learn(true, queue, number)?;
        self.counts.learn(true, queue, number)?;
        if let Work::Signals(fence, value) = work {
            self.update(fence, value, &known)?;
        }
        if let Some(of_queue) = self.queues.get_mut(queue as usize) {
            *of_queue = known;
        }
        Ok(broken)
    }

    fn join_before(
        &mut self,
        queue: u32,
        known: &mut Known,
        mark: &Option<Known>,
    ) -> Result<(), Memory> {
        if let Some(of_queue) = self.queues.get(queue as usize) {
            known.join(of_queue)?;
        }
        if let Some(mark) = mark {
            known.join(mark)?;
        }
        Ok(())
    }

    fn execute(
        &mut self,
        queue: u32,
        number: u64,
        known: Known,
        pieces: &[Piece],
    ) -> Result<Option<Rule>, Memory> {
        let subs = self.subs.clone()?;
        let lost = self.lost.clone()?;
        let doer = Doer::Operation(queue, number);
        let mut scope = Scope::new(self.alloc, doer, known, subs, lost);
        scope.take(pieces, &self.done)?;
        for done in &scope.done {
            self.done.push(*done)?;
        }
        let Scope {
            broken,
            subs,
            lost,
            ..
        } = scope;
        self.subs = subs;
        self.lost = lost;
        Ok(broken)
    }
}

impl Called {
    /// Whether it is a wait for a fence that a value meets.
    fn waits_for(&self, fence: u32, value: u64) -> bool {
        match self.work {
            Work::Waits(of, wanted) => of == fence && wanted <= value,
            _ => false,
        }
    }
}

// What each of the receiver's calls does. The public calls add the law over runs, which follows from what is promised here.
ghost use Rattle.std.specs.Prelude.{◌≡◌, ◌+◌, ◌-◌, ◌^◌, ◌≤◌, cond, Some, None, min, T, length, take, Ok, Err};
ghost use Rattle.receiver.specs.Lent.{SameLoans};
ghost use Rattle.receiver.specs.Admissions.{admitted, replied, in_force};
ghost use Rattle.receiver.specs.Model.{caps_fault};
ghost use Rattle.receiver.specs.Standings.{memory_fits, take_asked, TakesInHand, AdvancesIn};
ghost use Rattle.receiver.specs.Words.{HandedOver, steps_kept, kept_after, answer_of};

use crate::advancing::{Progress, make_steps};
use crate::answers::Advance;
use crate::caps::Caps;
use crate::faults::ReceiverFault;
use crate::loading::{all_read, clear_bits, load};
use crate::memory::{Memory, Next, Step};
use crate::pending::put_alone;
use crate::receiver::Receiver;
use crate::states::{Asked, State, admit};
use code::encode::{message_of, position_count, right_lengths};
use code::map::Map;
use soft::soft::Soft;

// Is the memory large enough for the map's positions: 2N soft numbers, 64 pending steps and N bits?
fn enough_memory<M: Map, S>(map: &M, memory: &Memory<S>) -> Result<(), ReceiverFault>
    ensures { result ≡ replied (cond (memory_fits (M.Map.exponent map.now) memory.now) None (Some ReceiverFault.Memory)) tt }
{
    let size = position_count(map);
    if memory.soft.len() < 2 * size || memory.pending.len() < 64 || memory.bits.len() < size {
        return Err(ReceiverFault::Memory);
    }
    Ok(())
}

// How many steps were made of the word in hand.
// Kept as a function, and no From: the count is one thing that a state tells.
fn steps_kept(state: State) -> u32
    ensures { result ≡ steps_kept state }
{
    match state {
        State::Idle => 0,
        State::Working(_, steps) | State::Finished(steps) => steps,
    }
}

// What is kept of the word in hand after some steps more.
// Kept as a height: 0 is what says that no step is pending.
fn kept_after(progress: Progress, steps: u32) -> State
    ensures { result ≡ kept_after progress.height (min (steps + progress.made) (2 ^ 32 - 1)) }
{
    let all = steps.saturating_add(u32::from(progress.made));
    match progress.height {
        0 => State::Finished(all),
        height => State::Working(height, all),
    }
}

// Copies the first bits of the work memory.
// Kept as a function that is lent the memory to read: so it needs no clause that the memory stays.
// Kept with the size beside it: memory may be larger than the map needs.
fn copy_front<S>(memory: &Memory<S>, word: &mut [u8], size: usize)
    requires { (size ≤ length memory.now.bits.now) × (length word.old ≡ size) }
    ensures { word.new ≡ take size memory.now.bits.now }
{
    word.copy_from_slice(&memory.bits[..size]);
}

impl<M: Map + Copy, S: Soft + Copy> Receiver<M, S> {
    // Puts another map in force, unless a word is in hand.
    pub(crate) fn put_map(&mut self, map: M) -> Result<(), ReceiverFault>
        ensures answer { result ≡ replied (admitted self.old.state Asked.Remap) tt }
        ensures map { self.new.map ≡ in_force (admitted self.old.state Asked.Remap) map self.old.map }
        ensures rest { (self.new.caps ≡ self.old.caps) × (self.new.state ≡ self.old.state) }
    {
        admit(self.state, Asked::Remap)?;
        self.map = map;
        Ok(())
    }

    // Puts two caps in force, also during a word.
    pub(crate) fn put_caps(&mut self, first: u8, second: u8) -> Result<(), ReceiverFault>
        ensures answer { result ≡ replied (caps_fault first second) tt }
        ensures caps { self.new.caps ≡ in_force (caps_fault first second) (record { first = first; second = second }) self.old.caps }
        ensures rest { (self.new.map ≡ self.old.map) × (self.new.state ≡ self.old.state) }
    {
        if first > 10 || second > 10 {
            return Err(ReceiverFault::Cap);
        }
        self.caps = Caps { first, second };
        Ok(())
    }

    // Ends the word in hand without result.
    pub(crate) fn end_word(&mut self) -> Result<(), ReceiverFault>
        ensures answer { result ≡ replied (admitted self.old.state Asked.Drop) tt }
        ensures state { self.new.state ≡ in_force (admitted self.old.state Asked.Drop) State.Idle self.old.state }
        ensures rest { (self.new.map ≡ self.old.map) × (self.new.caps ≡ self.old.caps) }
    {
        admit(self.state, Asked::Drop)?;
        self.state = State::Idle;
        Ok(())
    }

    // Takes a word in hand whose length `fits`.
    // Kept as a yes or no: the two calls differ in this question alone.
    // Kept with what stays as clauses: a call changes only some parts of a receiver, and no type says that.
    pub(crate) fn begin(
        &mut self,
        memory: &mut Memory<S>,
        bytes: &[u8],
        fits: bool,
    ) -> Result<(), ReceiverFault>
        requires { T fits → length bytes.now ≤ 2 ^ M.Map.exponent self.old.map }
        ensures taken { TakesInHand S.Soft.kind M.Map.exponent fits bytes.now self.old memory.old self.new memory.new result }
        ensures rest { (self.new.map ≡ self.old.map) × (self.new.caps ≡ self.old.caps) }
        ensures lent { SameLoans memory.old memory.new }
    {
        admit(self.state, Asked::Word)?;
        if !fits {
            return Err(ReceiverFault::Length);
        }
        enough_memory(&self.map, memory)?;
        all_read::<S>(bytes)?;
        let size = position_count(&self.map);
        load(memory.soft, bytes, size);
        clear_bits(memory.bits, size);
        let first = Step {
            next: Next::First,
            start: 0,
            e: self.map.n(),
        };
        put_alone(memory.pending, first);
        self.state = State::Working(1, 0);
        Ok(())
    }

    // Writes the word that was decoded and its message, ends the word, and answers all steps made.
    pub(crate) fn hand_over(
        &mut self,
        memory: &mut Memory<S>,
        message: &mut [u8],
        word: &mut [u8],
    ) -> Result<u32, ReceiverFault>
        ensures handed { HandedOver (take_asked M.Map.exponent M.Map.marks self.old memory.old (length message.old) (length word.old)) (M.Map.exponent self.old.map) (M.Map.marks self.old.map) memory.old.bits.now message.old message.new word.old word.new self.old.state self.new.state result }
        ensures rest { (self.new.map ≡ self.old.map) × (self.new.caps ≡ self.old.caps) }
        ensures lent { SameLoans memory.old memory.new }
        ensures kept { (memory.new.soft.now ≡ memory.old.soft.now) × (memory.new.pending.now ≡ memory.old.pending.now) × (memory.new.bits.now ≡ memory.old.bits.now) }
    {
        admit(self.state, Asked::Take)?;
        enough_memory(&self.map, memory)?;
        let size = position_count(&self.map);
        if !right_lengths(&self.map, message.len(), word.len()) {
            return Err(ReceiverFault::Length);
        }
        copy_front(memory, word, size);
        let _ = message_of(&self.map, word, message);
        let steps = steps_kept(self.state);
        self.state = State::Idle;
        Ok(steps)
    }

    // Makes as many steps as the allowance and the remaining work permit.
    // Kept as a height: that no step is pending is what the height tells.
    pub(crate) fn go_on(
        &mut self,
        memory: &mut Memory<S>,
        allowance: u16,
    ) -> Result<Advance, ReceiverFault>
        ensures goes { AdvancesIn S.Soft.kind M.Map.exponent M.Map.marks allowance self.old memory.old self.new memory.new (answer_of result) }
        ensures rest { (self.new.map ≡ self.old.map) × (self.new.caps ≡ self.old.caps) }
        ensures lent { SameLoans memory.old memory.new }
    {
        admit(self.state, Asked::Advance)?;
        enough_memory(&self.map, memory)?;
        match self.state {
            State::Working(height, steps) => {
                let caps = self.caps;
                let progress = make_steps(&self.map, caps, memory, height, allowance);
                self.state = kept_after(progress, steps);
                Ok(Advance {
                    made: progress.made,
                    finished: progress.height == 0,
                })
            }
            State::Idle => Err(ReceiverFault::NoWord),
            State::Finished(_) => Ok(Advance {
                made: 0,
                finished: true,
            }),
        }
    }
}

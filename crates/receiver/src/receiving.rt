// The receiver's seven calls, each with the law over every list of calls that has led to it.
ghost use Rattle.std.specs.Prelude.{◌≡◌, ◌^◌, ℕ, List, [], length, take};
ghost use Rattle.receiver.specs.Lent.{SameLoans};
ghost use Rattle.receiver.specs.declared.memory.Step.{Step as Pending};
ghost use Rattle.receiver.specs.Admissions.{admitted, replied, in_force};
ghost use Rattle.receiver.specs.Calls.{Call};
ghost use Rattle.receiver.specs.Histories.{Led, Anew, plain, went_to, taken_as};
ghost use Rattle.receiver.specs.Model.{caps_fault, full_length, short_length, message_in};
ghost use Rattle.receiver.specs.Standings.{memory_fits, take_asked, TakesInHand, AdvancesIn, GoesOn, GoesOnAnyway, StaysAsItWas};
ghost use Rattle.receiver.specs.Words.{steps_kept, answer_of};

use crate::answers::Advance;
use crate::caps::Caps;
use crate::faults::ReceiverFault;
use crate::memory::Memory;
use crate::receiver::Receiver;
use crate::states::{Asked, State};
use code::encode::position_count;
use code::map::Map;
use soft::soft::Soft;
use std::marker::PhantomData;

impl<M: Map + Copy, S: Soft + Copy> Receiver<M, S> {
    // A new receiver: caps 10 and 10, and no word in hand.
    pub fn new(map: M) -> Self
        ensures map { result.map ≡ map }
        ensures led { (soft : List S) (steps : List Pending) (row : List ℕ) → Led S.Soft.kind (M.Map.exponent map) (M.Map.marks map) [] (M.Map.exponent result.map) (M.Map.marks result.map) result.caps result.state soft steps row }
    {
        // that the map means a list of marks
        let _n = map.n();
        Receiver {
            map,
            caps: Caps {
                first: 10,
                second: 10,
            },
            state: State::Idle,
            kind: PhantomData,
        }
    }

    // The map in force.
    pub fn map(&self) -> M
        ensures { result ≡ self.now.map }
    {
        self.map
    }

    // Puts another map in force, unless a word is in hand.
    pub fn remap(&mut self, map: M) -> Result<(), ReceiverFault>
        ensures answer { result ≡ replied (admitted self.old.state Asked.Remap) tt }
        ensures map { self.new.map ≡ in_force (admitted self.old.state Asked.Remap) map self.old.map }
        ensures rest { (self.new.caps ≡ self.old.caps) × (self.new.state ≡ self.old.state) }
        ensures law { GoesOnAnyway S.Soft.kind M.Map.exponent M.Map.marks (Call.remap (M.Map.exponent map) (M.Map.marks map)) (plain result) self.old self.new }
    {
        // that the map means a list of marks
        let _n = map.n();
        self.put_map(map)
    }

    // Puts two caps in force, also during a word.
    pub fn set_caps(&mut self, first: u8, second: u8) -> Result<(), ReceiverFault>
        ensures answer { result ≡ replied (caps_fault first second) tt }
        ensures caps { self.new.caps ≡ in_force (caps_fault first second) (record { first = first; second = second }) self.old.caps }
        ensures rest { (self.new.map ≡ self.old.map) × (self.new.state ≡ self.old.state) }
        ensures law { GoesOnAnyway S.Soft.kind M.Map.exponent M.Map.marks (Call.set_caps first second) (plain result) self.old self.new }
    {
        self.put_caps(first, second)
    }

    // Takes a word of N bytes in hand. A full word and a short one are two calls, as the user has them: they differ in which lengths are right.
    // Kept as a clause, here and below: that the loans are the same is told of before and after, and no type says it.
    pub fn word(&mut self, memory: &mut Memory<S>, bytes: &[u8]) -> Result<(), ReceiverFault>
        ensures taken { TakesInHand S.Soft.kind M.Map.exponent (full_length (M.Map.exponent self.old.map) (length bytes.now)) bytes.now self.old memory.old self.new memory.new result }
        ensures rest { (self.new.map ≡ self.old.map) × (self.new.caps ≡ self.old.caps) }
        ensures lent { SameLoans memory.old memory.new }
        ensures law { GoesOn S.Soft.kind M.Map.exponent M.Map.marks (Call.word (memory_fits (M.Map.exponent self.old.map) memory.old) bytes.now) (plain result) self.old memory.old self.new memory.new }
        ensures stays { StaysAsItWas S.Soft.kind M.Map.exponent M.Map.marks (Call.word (memory_fits (M.Map.exponent self.old.map) memory.old) bytes.now) (plain result) self.old self.new }
    {
        // that the map means a list of marks
        let _n = self.map.n();
        let fits = bytes.len() == position_count(&self.map);
        self.begin(memory, bytes, fits)
    }

    // Takes a word of 1 to N bytes in hand; the fill stands for the positions that were not sent.
    pub fn short_word(&mut self, memory: &mut Memory<S>, bytes: &[u8]) -> Result<(), ReceiverFault>
        ensures taken { TakesInHand S.Soft.kind M.Map.exponent (short_length (M.Map.exponent self.old.map) (length bytes.now)) bytes.now self.old memory.old self.new memory.new result }
        ensures rest { (self.new.map ≡ self.old.map) × (self.new.caps ≡ self.old.caps) }
        ensures lent { SameLoans memory.old memory.new }
        ensures law { GoesOn S.Soft.kind M.Map.exponent M.Map.marks (Call.short_word (memory_fits (M.Map.exponent self.old.map) memory.old) bytes.now) (plain result) self.old memory.old self.new memory.new }
        ensures stays { StaysAsItWas S.Soft.kind M.Map.exponent M.Map.marks (Call.short_word (memory_fits (M.Map.exponent self.old.map) memory.old) bytes.now) (plain result) self.old self.new }
    {
        // that the map means a list of marks
        let _n = self.map.n();
        let fits = (1..=position_count(&self.map)).contains(&bytes.len());
        self.begin(memory, bytes, fits)
    }

    // Makes as many steps as the allowance and the remaining work permit.
    pub fn advance(
        &mut self,
        memory: &mut Memory<S>,
        allowance: u16,
    ) -> Result<Advance, ReceiverFault>
        ensures goes { AdvancesIn S.Soft.kind M.Map.exponent M.Map.marks allowance self.old memory.old self.new memory.new (answer_of result) }
        ensures rest { (self.new.map ≡ self.old.map) × (self.new.caps ≡ self.old.caps) }
        ensures lent { SameLoans memory.old memory.new }
        ensures law { GoesOn S.Soft.kind M.Map.exponent M.Map.marks (Call.advance (memory_fits (M.Map.exponent self.old.map) memory.old) allowance) (went_to (answer_of result)) self.old memory.old self.new memory.new }
        ensures stays { StaysAsItWas S.Soft.kind M.Map.exponent M.Map.marks (Call.advance (memory_fits (M.Map.exponent self.old.map) memory.old) allowance) (went_to (answer_of result)) self.old self.new }
    {
        // that the map has at most 1024 positions
        let _n = self.map.n();
        self.go_on(memory, allowance)
    }

    // Writes the word that was decoded and its message, ends the word, and answers all steps made.
    pub fn take(
        &mut self,
        memory: &mut Memory<S>,
        message: &mut [u8],
        word: &mut [u8],
    ) -> Result<u32, ReceiverFault>
        ensures answer { result ≡ replied (take_asked M.Map.exponent M.Map.marks self.old memory.old (length message.old) (length word.old)) (steps_kept self.old.state) }
        ensures word { word.new ≡ in_force (take_asked M.Map.exponent M.Map.marks self.old memory.old (length message.old) (length word.old)) (take (2 ^ M.Map.exponent self.old.map) memory.old.bits.now) word.old }
        ensures message { message.new ≡ in_force (take_asked M.Map.exponent M.Map.marks self.old memory.old (length message.old) (length word.old)) (message_in (M.Map.exponent self.old.map) (M.Map.marks self.old.map) (take (2 ^ M.Map.exponent self.old.map) memory.old.bits.now)) message.old }
        ensures state { self.new.state ≡ in_force (take_asked M.Map.exponent M.Map.marks self.old memory.old (length message.old) (length word.old)) State.Idle self.old.state }
        ensures rest { (self.new.map ≡ self.old.map) × (self.new.caps ≡ self.old.caps) }
        ensures lent { SameLoans memory.old memory.new }
        ensures kept { (memory.new.soft.now ≡ memory.old.soft.now) × (memory.new.pending.now ≡ memory.old.pending.now) × (memory.new.bits.now ≡ memory.old.bits.now) }
        ensures law { GoesOn S.Soft.kind M.Map.exponent M.Map.marks (Call.take (memory_fits (M.Map.exponent self.old.map) memory.old) (length message.old) (length word.old)) (taken_as result message.new word.new) self.old memory.old self.new memory.new }
        ensures stays { StaysAsItWas S.Soft.kind M.Map.exponent M.Map.marks (Call.take (memory_fits (M.Map.exponent self.old.map) memory.old) (length message.old) (length word.old)) (taken_as result message.new word.new) self.old self.new }
        ensures anew { Anew S.Soft.kind (M.Map.exponent self.new.map) (M.Map.marks self.new.map) self.new.caps self.new.state }
    {
        // that the map means a list of marks
        let _n = self.map.n();
        self.hand_over(memory, message, word)
    }

    // Ends the word in hand without result.
    pub fn drop_word(&mut self) -> Result<(), ReceiverFault>
        ensures answer { result ≡ replied (admitted self.old.state Asked.Drop) tt }
        ensures state { self.new.state ≡ in_force (admitted self.old.state Asked.Drop) State.Idle self.old.state }
        ensures rest { (self.new.map ≡ self.old.map) × (self.new.caps ≡ self.old.caps) }
        ensures law { GoesOnAnyway S.Soft.kind M.Map.exponent M.Map.marks (Call.drop_word) (plain result) self.old self.new }
        ensures anew { Anew S.Soft.kind (M.Map.exponent self.new.map) (M.Map.marks self.new.map) self.new.caps self.new.state }
    {
        // that the map means a list of marks
        let _n = self.map.n();
        self.end_word()
    }
}

// What a session has in force, and what a command does to it.
ghost use Rattle.std.specs.Prelude.{◌≡◌, length, None as NoFault};
ghost use Rattle.receiver.specs.Lent.{SameLoans};
ghost use Rattle.receiver.specs.declared.memory.Memory.{Memory as WorkMemory};
ghost use Rattle.session.specs.Chosen.{exponent_of, marks_of};
ghost use Rattle.session.specs.Commands.{request_of};
ghost use Rattle.session.specs.Sessions.{InForce, nothing, sizes_in, choose, do_order, do_slot, do_ranked, do_listed, do_encode, do_caps, do_word, do_short_word, do_advance, do_take, do_drop, perform};
ghost use Rattle.session.specs.States.{Stands, Room, Does, Works, Placed};

use crate::answers::{Answer, Buffers};
use crate::chosen::Chosen;
use crate::commands::{Command, Sizes};
use crate::faults::SessionFault;
use crate::shelf::{Source, Sources, find_slot};
use code::encode::{encode, informed_count, position_count};
use code::listed::Listed;
use code::order::Order;
use code::ranked::Ranked;
use receiver::memory::Memory;
use receiver::receiver::Receiver;
use soft::soft::Soft;

// The order in force and the receiver over the map in force, from the first that is accepted on.
#[derive(Drop)]
pub(crate) struct State<'a, S> {
    pub(crate) order: Option<Order<'a>>,
    pub(crate) receiver: Option<Receiver<Chosen<'a>, S>>,
}

impl<'a, S: Soft + Copy> State<'a, S> {
    pub(crate) fn new() -> Self
        ensures { (memory : WorkMemory S) → Room memory → Stands S.Soft.kind nothing result memory }
    {
        State {
            order: None,
            receiver: None,
        }
    }

    // How many bytes `E` and `W` take, if there is a map.
    pub(crate) fn sizes(&self) -> Option<Sizes>
        ensures { (s : InForce S) (memory : WorkMemory S) → Stands S.Soft.kind s self.now memory → result ≡ sizes_in s.receiver }
    {
        let map = self.receiver.as_ref()?.map();
        Some(Sizes {
            informed: informed_count(&map),
            positions: position_count(&map),
        })
    }

    // `O`, and the order that an `S` finds.
    fn put_order(&mut self, n: u8, bytes: &'a [u8]) -> Result<Answer<'static>, SessionFault>
        ensures { Does S.Soft.kind (do_order n bytes.now) result self.old self.new }
    {
        self.order = Some(Order::read(n, bytes)?);
        Ok(Answer::Number(usize::from(n)))
    }

    // `S`
    fn put_slot(
        &mut self,
        at: usize,
        slot: u8,
        sources: Sources<'a>,
    ) -> Result<Answer<'static>, SessionFault>
        ensures { Does S.Soft.kind (do_slot sources.entry.shelf.now at slot) result self.old self.new }
    {
        let record = find_slot(sources.shelf, slot).ok_or(SessionFault::Slot(at))?;
        let (ranks, _) = sources.ranks(Source::Shelf, record.place, record.count);
        self.put_order(record.n, ranks)
    }

    // A map that was made: the first makes the receiver, a later one remaps it.
    fn put_map(&mut self, map: Chosen<'a>) -> Result<Answer<'static>, SessionFault>
        ensures { Does S.Soft.kind (choose S.Soft.kind NoFault (exponent_of map.entry) (marks_of map.entry)) result self.old self.new }
    {
        match &mut self.receiver {
            Some(receiver) => receiver.remap(map)?,
            None => self.receiver = Some(Receiver::new(map)),
        }
        Ok(Answer::Number(informed_count(&map)))
    }

    // `K`
    fn put_ranked(&mut self, at: usize, k: u16) -> Result<Answer<'static>, SessionFault>
        ensures { Does S.Soft.kind (do_ranked S.Soft.kind at k) result self.old self.new }
    {
        let order = self.order.ok_or(SessionFault::NoOrder(at))?;
        self.put_map(Chosen::Ranked(Ranked::choose(order, k)?))
    }

    // `L`
    fn put_listed(&mut self, n: u8, marks: &'a [u8]) -> Result<Answer<'static>, SessionFault>
        ensures { Does S.Soft.kind (do_listed S.Soft.kind n marks.now) result self.old self.new }
    {
        self.put_map(Chosen::Listed(Listed::read(n, marks)?))
    }

    // `B`
    // Kept beside the other commands: each makes its own call of the receiver, and the call's contract is its own.
    // Kept with `as_mut` and `ok_or` in each command: of a method that lends the receiver, as that chain or as a match, it did not prove what the state ends as.
    fn put_caps(
        &mut self,
        at: usize,
        first: u8,
        second: u8,
    ) -> Result<Answer<'static>, SessionFault>
        ensures { Does S.Soft.kind (do_caps S.Soft.kind at first second) result self.old self.new }
    {
        let receiver = self.receiver.as_mut().ok_or(SessionFault::NoMap(at))?;
        receiver.set_caps(first, second)?;
        Ok(Answer::Pair(usize::from(first), usize::from(second)))
    }

    // `X`
    // Kept beside the other commands, for the same reason.
    fn drop_word(&mut self, at: usize) -> Result<Answer<'static>, SessionFault>
        ensures { Does S.Soft.kind (do_drop S.Soft.kind at) result self.old self.new }
    {
        let receiver = self.receiver.as_mut().ok_or(SessionFault::NoMap(at))?;
        receiver.drop_word()?;
        Ok(Answer::Nothing)
    }

    // `W`
    // Kept beside the other commands: each makes its own call of the receiver.
    fn word(
        &mut self,
        at: usize,
        bytes: &[u8],
        memory: &mut Memory<S>,
    ) -> Result<Answer<'static>, SessionFault>
        ensures works { Works S.Soft.kind (do_word S.Soft.kind at bytes.now) result self.old memory.old self.new memory.new }
        ensures lent { SameLoans memory.old memory.new }
    {
        let receiver = self.receiver.as_mut().ok_or(SessionFault::NoMap(at))?;
        receiver.word(memory, bytes)?;
        Ok(Answer::Nothing)
    }

    // `V`
    // Kept beside `W`: one function for both would need a flag that says which of the receiver's calls is meant.
    fn short_word(
        &mut self,
        at: usize,
        bytes: &[u8],
        memory: &mut Memory<S>,
    ) -> Result<Answer<'static>, SessionFault>
        ensures works { Works S.Soft.kind (do_short_word S.Soft.kind at bytes.now) result self.old memory.old self.new memory.new }
        ensures lent { SameLoans memory.old memory.new }
    {
        let receiver = self.receiver.as_mut().ok_or(SessionFault::NoMap(at))?;
        receiver.short_word(memory, bytes)?;
        Ok(Answer::Nothing)
    }

    // `A`
    // Kept beside the other commands: each makes its own call of the receiver.
    fn advance(
        &mut self,
        at: usize,
        allowance: u16,
        memory: &mut Memory<S>,
    ) -> Result<Answer<'static>, SessionFault>
        ensures works { Works S.Soft.kind (do_advance S.Soft.kind at allowance) result self.old memory.old self.new memory.new }
        ensures lent { SameLoans memory.old memory.new }
    {
        let receiver = self.receiver.as_mut().ok_or(SessionFault::NoMap(at))?;
        let advance = receiver.advance(memory, allowance)?;
        Ok(Answer::Pair(usize::from(advance.made), usize::from(advance.finished)))
    }

    // `T`
    #[tactic(auto, using(crate::proofs::Calling::few_informed))]
    fn take<'b>(
        &mut self,
        at: usize,
        memory: &mut Memory<S>,
        buffers: Buffers<'b>,
    ) -> Result<Answer<'b>, SessionFault>
        ensures works { Works S.Soft.kind (do_take S.Soft.kind at) result self.old memory.old self.new memory.new }
        ensures lent { SameLoans memory.old memory.new }
    {
        let receiver = self.receiver.as_mut().ok_or(SessionFault::NoMap(at))?;
        let map = receiver.map();
        let informed = informed_count(&map);
        let positions = position_count(&map);
        let Buffers { message, word } = buffers;
        let message = &mut message[0..informed];
        let word = &mut word[0..positions];
        let steps = receiver.take(memory, message, word)?;
        Ok(Answer::Taken(steps, message, word))
    }

    // `E`
    fn encode<'b>(
        &self,
        at: usize,
        message: &[u8],
        buffers: Buffers<'b>,
    ) -> Result<Answer<'b>, SessionFault>
        ensures { Does S.Soft.kind (do_encode at message.now) result self.now self.now }
    {
        let receiver = self.receiver.as_ref().ok_or(SessionFault::NoMap(at))?;
        let map = receiver.map();
        let word = &mut buffers.word[0..position_count(&map)];
        encode(&map, message, word)?;
        Ok(Answer::Word(word))
    }

    // Does what a command asks, whose letter stands at offset `at`.
    // Kept as a match: the commands are a closed list, and each has its own operands and its own function.
    #[tactic(auto, unfolding(crate::specs::Sessions::perform))]
    pub(crate) fn run<'b>(
        &mut self,
        command: Command<'a>,
        at: usize,
        sources: Sources<'a>,
        memory: &mut Memory<S>,
        buffers: Buffers<'b>,
    ) -> Result<Answer<'b>, SessionFault>
        requires { Placed sources.session.now at (request_of command) }
        ensures works { Works S.Soft.kind (perform S.Soft.kind sources.entry.shelf.now at (request_of command.entry)) result self.old memory.old self.new memory.new }
        ensures lent { SameLoans memory.old memory.new }
    {
        match command {
            Command::Slot { slot } => self.put_slot(at, slot, sources),
            Command::Order { n, ranks } => {
                let (ranks, _) = sources.ranks(Source::Session, at + 2, ranks.len());
                self.put_order(n, ranks)
            }
            Command::Ranked { k } => self.put_ranked(at, k),
            Command::Listed { n, marks } => self.put_listed(n, marks),
            Command::Encode { message } => self.encode(at, message, buffers),
            Command::Caps { first, second } => self.put_caps(at, first, second),
            Command::Word { bytes } => self.word(at, bytes, memory),
            Command::ShortWord { bytes } => self.short_word(at, bytes, memory),
            Command::Advance { allowance } => self.advance(at, allowance, memory),
            Command::Take => self.take(at, memory, buffers),
            Command::Drop => self.drop_word(at),
        }
    }
}

// Three clients, each as the calls that write its run and ask whether it books once.
use crate::symbols::Symbol;
use calls::call::Call;
use leaf::accession_number::AccessionNumber;
use slate::limits::WORK_PER_CELL;
use std::alloc::{AllocError, Global};

// The cells that each client's slate is supplied with.
pub const CELLS: usize = 512;

// The length of the work list.
pub const WORK: usize = WORK_PER_CELL * CELLS;

// The frames, and the length of the record list.
pub const STEPS: usize = 128;

// How many tries a search has.
pub const BUDGET: u32 = 100;

// The calls so far, and the next cell that one of them writes.
#[derive(Drop)]
struct Client {
    heap: Global,
    calls: Vec<Call<AccessionNumber>>,
    next: u16,
}

impl Client {
    fn new(heap: Global) -> Client {
        Client {
            heap,
            calls: Vec::new(heap),
            next: 0,
        }
    }

    // One more call that writes a cell, and that cell's number.
    fn write(&mut self, call: Call<AccessionNumber>) -> Result<u16, AllocError> {
        let cell = self.next;
        self.calls.push(call)?;
        self.next = cell.saturating_add(1);
        Ok(cell)
    }

    fn open(&mut self) -> Result<u16, AllocError> {
        self.write(Call::Open)
    }

    fn number(&mut self, number: u32) -> Result<u16, AllocError> {
        self.write(Call::Leaf(AccessionNumber(number)))
    }

    fn node(&mut self, symbol: Symbol, args: &[u16]) -> Result<u16, AllocError> {
        let symbol = u16::from(symbol);
        let args = args.to_vec(self.heap)?;
        self.write(Call::Node { symbol, args })
    }

    fn equate(&mut self, left: u16, right: u16) -> Result<(), AllocError> {
        let work = WORK;
        Ok(self.calls.push(Call::Equate { left, right, work })?)
    }

    // The run that goes on with these events, the last of them first, and then with the rest.
    fn run(&mut self, events: &[u16], rest: u16) -> Result<u16, AllocError> {
        events
            .iter()
            .try_fold(rest, |run, event| self.node(Symbol::Run, &[*event, run]))
    }

    // The request, sent with the client's key or plain.
    fn request(&mut self, with: Symbol) -> Result<u16, AllocError> {
        let with = self.node(with, &[])?;
        self.node(Symbol::Send, &[with])
    }

    // The run in which these events come for ever, the last of them first.
    fn for_ever(&mut self, events: &[u16]) -> Result<u16, AllocError> {
        let start = self.open()?;
        let run = self.run(events, start)?;
        self.equate(start, run)?;
        Ok(run)
    }

    // The run in which nothing happens.
    fn silent(&mut self) -> Result<u16, AllocError> {
        let silence = self.node(Symbol::Silence, &[])?;
        self.for_ever(&[silence])
    }

    // Asks whether the run books once. The number is open, and stands in the cell before the goal.
    fn ask(mut self, run: u16) -> Result<Vec<Call<AccessionNumber>>, AllocError> {
        let number = self.open()?;
        let goal = self.node(Symbol::BooksOnce, &[run, number])?;
        let goals = [goal].to_vec(self.heap)?;
        self.calls.push(Call::Solve {
            goals,
            budget: BUDGET,
            room: STEPS,
            work: WORK,
            frames: STEPS,
        })?;
        let Client { calls, .. } = self;
        Ok(calls)
    }
}

// Sends with its key until the answer comes, and is silent for ever. The first request is lost, then the answer to the second.
pub fn retrying(heap: Global) -> Result<Vec<Call<AccessionNumber>>, AllocError> {
    let mut client = Client::new(heap);
    let silent = client.silent()?;
    let send = client.request(Symbol::Key)?;
    let loss = client.node(Symbol::Loss, &[])?;
    let number = client.number(17)?;
    let booking = client.node(Symbol::Booking, &[number])?;
    let answer = client.node(Symbol::Answer, &[number])?;
    let run = client.run(&[answer, send, loss, booking, send, loss, send], silent)?;
    client.ask(run)
}

// Sends again without a key when the answer is lost, so that the register books a second number.
pub fn resending(heap: Global) -> Result<Vec<Call<AccessionNumber>>, AllocError> {
    let mut client = Client::new(heap);
    let silent = client.silent()?;
    let send = client.request(Symbol::Plain)?;
    let loss = client.node(Symbol::Loss, &[])?;
    let first = client.number(17)?;
    let second = client.number(18)?;
    let first_booking = client.node(Symbol::Booking, &[first])?;
    let second_booking = client.node(Symbol::Booking, &[second])?;
    let answer = client.node(Symbol::Answer, &[second])?;
    let run = client.run(
        &[answer, second_booking, send, loss, first_booking, send],
        silent,
    )?;
    client.ask(run)
}

// Sends with its key for ever, and every request is lost.
pub fn unheard(heap: Global) -> Result<Vec<Call<AccessionNumber>>, AllocError> {
    let mut client = Client::new(heap);
    let send = client.request(Symbol::Key)?;
    let loss = client.node(Symbol::Loss, &[])?;
    let run = client.for_ever(&[loss, send])?;
    client.ask(run)
}

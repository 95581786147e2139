// A symbol of runs and of the rules about them. Its discriminant is its number in books and slates.
#[derive(Clone, Copy, PartialEq, Eq, Debug)]
pub enum Symbol {
    // a run: an event, and the rest of the run
    Run = 1,
    // the client sends its request, with its key or plain
    Send = 2,
    // what was sent last is lost
    Loss = 3,
    // the register books a number
    Booking = 4,
    // a number comes as the answer
    Answer = 5,
    // nothing happens
    Silence = 6,
    // the client's key
    Key = 7,
    // no key
    Plain = 8,
    // the run comes to book a number, and then never books another
    BooksOnce = 9,
    // the run never books another number
    BooksNoMore = 10,
}

impl From<Symbol> for u16 {
    fn from(symbol: Symbol) -> u16 {
        symbol as u16
    }
}

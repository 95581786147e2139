// The rules for runs, as a table.
ghost use Rattle.std.specs.Prelude.{◌≤◌, length};

use crate::symbols::Symbol;
use book::entry::{CellNumbers, EntryCell, EntryKind, Node};
use book::table::Row;
use leaf::accession_number::AccessionNumber;
use std::alloc::{AllocError, Global};

// A cell of a rule.
type RuleCell = EntryCell<AccessionNumber>;

// The first event of a run, and what then has to hold of the rest for the rule to hold of the whole.
#[derive(Clone, Copy)]
struct Rule {
    whole: Symbol,
    event: Symbol,
    rest: Symbol,
}

// To book a number is to be come to; from then on no rule lets another be booked.
const RULES: [Rule; 7] = [
    Rule {
        whole: Symbol::BooksOnce,
        event: Symbol::Send,
        rest: Symbol::BooksOnce,
    },
    Rule {
        whole: Symbol::BooksOnce,
        event: Symbol::Loss,
        rest: Symbol::BooksOnce,
    },
    Rule {
        whole: Symbol::BooksOnce,
        event: Symbol::Booking,
        rest: Symbol::BooksNoMore,
    },
    Rule {
        whole: Symbol::BooksNoMore,
        event: Symbol::Send,
        rest: Symbol::BooksNoMore,
    },
    Rule {
        whole: Symbol::BooksNoMore,
        event: Symbol::Loss,
        rest: Symbol::BooksNoMore,
    },
    Rule {
        whole: Symbol::BooksNoMore,
        event: Symbol::Answer,
        rest: Symbol::BooksNoMore,
    },
    Rule {
        whole: Symbol::BooksNoMore,
        event: Symbol::Silence,
        rest: Symbol::BooksNoMore,
    },
];

// Rows, and the cells that they point to.
#[derive(Drop)]
pub struct RuleTable {
    pub rows: Vec<Row>,
    pub cells: Vec<RuleCell>,
}

// A node over these cells.
fn node(symbol: Symbol, args: &[u8]) -> RuleCell
    requires { length args.now ≤ 4 }
{
    EntryCell::Node(Node {
        symbol: u16::from(symbol),
        args: CellNumbers::try_from(args).unwrap(),
    })
}

// The event, of the number in cell 1 or the key in cell 2.
fn event(symbol: Symbol) -> RuleCell {
    match symbol {
        Symbol::Send => node(symbol, &[2]),
        Symbol::Booking | Symbol::Answer => node(symbol, &[1]),
        _ => node(symbol, &[]),
    }
}

impl RuleTable {
    // One more entry, of its own cells.
    fn add(
        &mut self,
        kind: EntryKind,
        own: &[RuleCell],
        head: u8,
        body: &[u8],
    ) -> Result<(), AllocError>
        requires { length body.now ≤ 8 }
    {
        let first = self.cells.len();
        self.cells.extend_from_slice(own)?;
        self.rows.push(Row {
            kind,
            first,
            cells: own.len(),
            head,
            body: CellNumbers::try_from(body).unwrap(),
        })?;
        Ok(())
    }

    // The co-fact: a run may be taken to book no more where it comes round to itself. That it books at all has no co-fact.
    fn add_cofact(&mut self) -> Result<(), AllocError> {
        let own = [
            EntryCell::Variable,
            EntryCell::Variable,
            node(Symbol::BooksNoMore, &[0, 1]),
        ];
        self.add(EntryKind::CoFact, &own, 2, &[])
    }

    // The clause of a rule. Cell 0 is the rest of the run, cell 1 the number, and cell 2 a key.
    fn add_clause(&mut self, rule: Rule) -> Result<(), AllocError> {
        let own = [
            EntryCell::Variable,
            EntryCell::Variable,
            EntryCell::Variable,
            event(rule.event),
            node(Symbol::Run, &[3, 0]),
            node(rule.whole, &[4, 1]),
            node(rule.rest, &[0, 1]),
        ];
        self.add(EntryKind::Clause, &own, 5, &[6])
    }
}

// The co-fact, and then the clauses.
pub fn rules(heap: Global) -> Result<RuleTable, AllocError> {
    let mut rules = RuleTable {
        rows: Vec::new(heap),
        cells: Vec::new(heap),
    };
    rules.add_cofact()?;
    for rule in RULES {
        rules.add_clause(rule)?;
    }
    Ok(rules)
}

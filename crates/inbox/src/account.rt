// What a pass knows of its inbox: what it did, and what it has seen of the inbox's lists.
// No value of these types is made: they stand in proofs alone, and take no memory.
use ccb::Completion;
use std::collections::LinkedList;

/// One completion that was put or taken, with the number of the pass that did so.
pub struct Entry {
    pub pass: u64,
    pub completion: Completion,
}

/// What an inbox is made with: how many completions it holds at most, and how many passes there are of each kind. Put passes are numbered from 0, take passes from there on.
pub struct Shape {
    pub capacity: u64,
    pub puts: u64,
    pub takes: u64,
}

/// What was seen of an inbox's lists: what had been put and taken in all at some moment.
pub struct Seen {
    pub put: LinkedList<Entry>,
    pub taken: LinkedList<Entry>,
}

/// What one pass has done, seen and been told: what it put and what it took, each in its order, what had been put and taken in all when it last did so, and what the receipts that it learned had seen.
pub struct Account {
    pub shape: Shape,
    pub number: u64,
    pub put: LinkedList<Completion>,
    pub taken: LinkedList<Completion>,
    pub seen_put: LinkedList<Entry>,
    pub seen_taken: LinkedList<Entry>,
    pub told: LinkedList<Seen>,
}

/// Whose knowledge it is: of the seat that the queue is made with, of that seat while it makes the passes, of a pass, of a receipt, or of a seat that is used up.
pub enum Role {
    Opening,
    Keeper,
    Holder,
    Teller,
    Spent,
}

/// What a seat at the queue knows. While the passes are made: how many were. A pass: its account; and once the inbox is closed, the accounts of the passes that it took in, and what it took out. A receipt: what stands in its account as told.
pub struct View {
    pub role: Role,
    pub made: u64,
    pub account: Account,
    pub back: LinkedList<Account>,
    pub rest: LinkedList<Completion>,
}

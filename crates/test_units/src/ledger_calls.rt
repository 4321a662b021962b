// One list of 10,000 random calls of a ledger, which answers as a plain list of its entries does. The list stands here as
// the model: in the order of numbers, searched from its front by each call.

use ccb::{Place, QueueId};
use freeze_ledger::{Freeze, FreezeToken, Holder, Ledger};
use std::alloc::{AllocError, Global};
use timer_events::expire_due;

const CALLS: u32 = 10_000;

const QUEUES: u32 = 4;

const CONTROLLERS: u32 = 2;

const MAX: usize = 1024;

const MAX_OF_PLACE: usize = 255;

// Numbers that look drawn by chance, the same in each run.
#[derive(Drop)]
struct Random(u64);

impl Random {
    fn below(&mut self, bound: u64) -> u64 {
        self.0 = self
            .0
            .wrapping_mul(6_364_136_223_846_793_005)
            .wrapping_add(1_442_695_040_888_963_407);
        if bound == 0 {
            0
        } else {
            (self.0 >> 33) % bound
        }
    }

    fn place(&mut self) -> Place {
        let drawn = (self.below(6) % 6) as u32;
        if drawn < QUEUES {
            Place::Device(QueueId(drawn))
        } else {
            Place::Controller(drawn.wrapping_sub(QUEUES))
        }
    }

    fn holder(&mut self) -> Holder {
        let number = (self.below(2) % 2) as u32;
        match self.below(8) {
            0 => Holder::Timer(self.below(4000)),
            1 | 2 => Holder::Guest(number),
            _ => Holder::Run(number),
        }
    }
}

fn with_room(alloc: Global) -> Result<Ledger, AllocError> {
    let queues = QUEUES;
    match Ledger::with_room(alloc, queues, CONTROLLERS) {
        Ok(ledger) => Ok(ledger),
        Err(AllocError) => Ledger::with_room(alloc, queues, CONTROLLERS),
    }
}

// Room for the list, and for the tokens that are out. Where memory is refused the same call again succeeds.
fn room_for_list(alloc: Global) -> Result<Vec<Freeze>, AllocError> {
    match Vec::with_capacity(alloc, MAX) {
        Ok(room) => Ok(room),
        Err(AllocError) => Vec::with_capacity(alloc, MAX),
    }
}

fn room_for_tokens(alloc: Global) -> Result<Vec<FreezeToken>, AllocError> {
    match Vec::with_capacity(alloc, CALLS as usize) {
        Ok(room) => Ok(room),
        Err(AllocError) => Vec::with_capacity(alloc, CALLS as usize),
    }
}

// The ledger's calls as they are: their clauses stay here.

fn take(ledger: &mut Ledger, place: Place, holder: Holder) -> Option<FreezeToken> {
    if place.index() >= ledger.places() {
        return None;
    }
    ledger.take(place, holder)
}

fn give_back(ledger: &mut Ledger, token: FreezeToken) -> Result<u32, FreezeToken> {
    ledger.give_back(token)
}

fn hand_over(ledger: &mut Ledger, token: FreezeToken, due: u64) -> Result<(), FreezeToken> {
    ledger.hand_over(token, due)
}

fn all_go(ledger: &mut Ledger, reading: u64) -> u32 {
    expire_due(ledger, reading)
}

fn count(ledger: &Ledger, place: Place) -> Option<u32> {
    if place.index() >= ledger.places() {
        return None;
    }
    Some(ledger.count(place))
}

fn first_deadline(ledger: &Ledger) -> Option<(u64, u32)> {
    ledger.first_deadline()
}

fn len(ledger: &Ledger) -> usize {
    ledger.len()
}

// Whether the ledger's holders of the place are those of the list: each is there, their numbers rise, and none is left out.
fn same_holders(ledger: &Ledger, plain: &[Freeze], place: Place) -> bool {
    if place.index() >= ledger.places() {
        return false;
    }
    let mut told: usize = 0;
    let mut last = 0;
    for (number, holder) in ledger.holders(place) {
        let freeze = Freeze {
            number,
            place,
            holder,
        };
        if number <= last || plain_place(plain, freeze).is_none() {
            return false;
        }
        last = number;
        told = told.wrapping_add(1);
    }
    told == plain_count(plain, place)
}

// What the plain list says.

fn plain_count(plain: &[Freeze], place: Place) -> usize {
    plain.iter().filter(|held| held.place == place).count()
}

fn plain_place(plain: &[Freeze], freeze: Freeze) -> Option<usize> {
    plain.iter().position(|held| *held == freeze)
}

fn plain_first(plain: &[Freeze]) -> Option<(u64, u32)> {
    let mut first: Option<(u64, u32)> = None;
    for held in plain {
        if let Holder::Timer(due) = held.holder {
            first = match first {
                Some((time, number)) if time <= due => Some((time, number)),
                Some(_) | None => Some((due, held.number)),
            };
        }
    }
    first
}

fn is_due(freeze: Freeze, reading: u64) -> bool {
    match freeze.holder {
        Holder::Timer(due) => due <= reading,
        Holder::Run(_) | Holder::Guest(_) => false,
    }
}

fn plain_remove(plain: &mut Vec<Freeze>, place: usize) {
    if place < plain.len() {
        plain.remove(place);
    }
}

fn plain_hand_over(plain: &mut Vec<Freeze>, place: usize, due: u64) {
    if place < plain.len() {
        let freeze = plain[place];
        let holder = Holder::Timer(due);
        plain[place] = Freeze { holder, ..freeze };
    }
}

// The one ledger and its list, the tokens that are out, and a second ledger whose tokens are foreign to the first.
struct Both {
    ledger: Ledger,
    plain: Vec<Freeze>,
    greatest: u32,
    tokens: Vec<FreezeToken>,
    other: Ledger,
    differs: bool,
}

impl Both {
    // Whether both answer alike so far.
    fn see(&mut self, alike: bool) {
        if !alike {
            self.differs = true;
        }
    }
}

fn freeze_of(token: &FreezeToken) -> Freeze {
    Freeze {
        number: token.number(),
        place: token.place(),
        holder: token.holder(),
    }
}

// Keeps a token, or forfeits it where there is no room.
fn keep(tokens: &mut Vec<FreezeToken>, token: FreezeToken) {
    if let Err(failed) = tokens.push(token) {
        failed.value.forfeit();
    }
}

fn forfeit_all(mut tokens: Vec<FreezeToken>) {
    while let Some(token) = tokens.pop() {
        token.forfeit();
    }
    tokens.destroy_empty();
}

// One freeze more, if neither answer meets a limit.
fn takes(both: &mut Both, place: Place, holder: Holder) -> Result<(), AllocError> {
    let full = plain_count(&both.plain, place) >= MAX_OF_PLACE || both.plain.len() >= MAX;
    match take(&mut both.ledger, place, holder) {
        Some(token) => {
            let freeze = freeze_of(&token);
            keep(&mut both.tokens, token);
            let number = both.greatest.wrapping_add(1);
            let wanted = Freeze {
                number,
                place,
                holder,
            };
            both.see(!full && freeze == wanted);
            both.greatest = number;
            both.plain.push(freeze).map_err(|_| AllocError)
        }
        None => {
            both.see(full);
            Ok(())
        }
    }
}

// A token's freeze goes in both, or in neither.
fn goes_back(both: &mut Both, token: FreezeToken) {
    let freeze = freeze_of(&token);
    let place = plain_place(&both.plain, freeze);
    match give_back(&mut both.ledger, token) {
        Ok(left) => match place {
            Some(place) => {
                plain_remove(&mut both.plain, place);
                let wanted = plain_count(&both.plain, freeze.place);
                both.see(left as usize == wanted);
            }
            None => both.see(false),
        },
        Err(token) => {
            token.forfeit();
            both.see(place.is_none());
        }
    }
}

// The same of a freeze that is handed over to a timer.
fn goes_over(both: &mut Both, token: FreezeToken, due: u64) {
    let place = plain_place(&both.plain, freeze_of(&token));
    match hand_over(&mut both.ledger, token, due) {
        Ok(()) => match place {
            Some(place) => plain_hand_over(&mut both.plain, place, due),
            None => both.see(false),
        },
        Err(token) => {
            token.forfeit();
            both.see(place.is_none());
        }
    }
}

fn clock_reads(both: &mut Both, reading: u64) {
    let before = both.plain.len();
    both.plain.retain(|held| !is_due(*held, reading));
    let gone = before.wrapping_sub(both.plain.len());
    let went = all_go(&mut both.ledger, reading);
    both.see(went as usize == gone);
}

// A token by its place among those that are out.
fn token_at(tokens: &mut Vec<FreezeToken>, place: u64) -> Option<FreezeToken> {
    let place = place as usize;
    if place < tokens.len() {
        Some(tokens.swap_remove(place))
    } else {
        None
    }
}

// One call of both, drawn by chance.
fn calls(both: &mut Both, random: &mut Random, reading: u64) -> Result<(), AllocError> {
    let drawn = random.below(both.tokens.len() as u64);
    match random.below(16) {
        0 | 1 | 2 => {
            if let Some(token) = token_at(&mut both.tokens, drawn) {
                goes_back(both, token);
            }
        }
        3 | 4 => {
            if let Some(token) = token_at(&mut both.tokens, drawn) {
                goes_over(both, token, reading.wrapping_add(random.below(300)));
            }
        }
        5 => {
            if let Some(token) = take(&mut both.other, random.place(), random.holder()) {
                goes_back(both, token);
            }
        }
        6 => {
            if let Some(token) = take(&mut both.other, random.place(), random.holder()) {
                goes_over(both, token, reading);
            }
        }
        7 => clock_reads(both, reading),
        _ => takes(both, random.place(), random.holder())?,
    }
    Ok(())
}

// What can be asked of both is answered alike.
fn are_alike(both: &Both, place: Place) -> bool {
    let counted = match count(&both.ledger, place) {
        Some(count) => count as usize == plain_count(&both.plain, place),
        None => false,
    };
    counted
        && len(&both.ledger) == both.plain.len()
        && first_deadline(&both.ledger) == plain_first(&both.plain)
}

fn all_calls(both: &mut Both) -> Result<(), AllocError> {
    let mut random = Random(1);
    for call in 0..CALLS {
        calls(both, &mut random, (call / 4) as u64)?;
        let place = random.place();
        let alike = are_alike(both, place)
            && (call % 50 != 0 || same_holders(&both.ledger, &both.plain, place));
        both.see(alike);
    }
    Ok(())
}

pub fn a_ledger_answers_as_a_plain_list(alloc: Global) -> Result<bool, AllocError> {
    let ledger = with_room(alloc)?;
    let other = with_room(alloc)?;
    let plain = room_for_list(alloc)?;
    let mut both = Both {
        ledger,
        plain,
        greatest: 0,
        tokens: room_for_tokens(alloc)?,
        other,
        differs: false,
    };
    let done = all_calls(&mut both);
    let Both {
        ledger: _,
        plain: _,
        greatest: _,
        tokens,
        other: _,
        differs,
    } = both;
    forfeit_all(tokens);
    done?;
    Ok(!differs)
}

// Whether the token's freeze went; a token that comes back is forfeited.
fn goes(ledger: &mut Ledger, token: Option<FreezeToken>) -> bool {
    match token {
        Some(token) => match give_back(ledger, token) {
            Ok(_) => true,
            Err(token) => {
                token.forfeit();
                false
            }
        },
        None => false,
    }
}

fn guest_takes(ledger: &mut Ledger, guest: u32) -> Option<FreezeToken> {
    take(ledger, Place::Device(QueueId(0)), Holder::Guest(guest))
}

// Freeze 1 goes by the token of the same freeze of another ledger, and freeze 2 comes under its key: the token that is left
// of the first is refused.
fn uses_a_key_again(one: &mut Ledger, other: &mut Ledger) -> bool {
    let guest = 7;
    let own = guest_takes(one, guest);
    let twin = guest_takes(other, guest);
    let first = goes(one, twin);
    let next = guest_takes(one, guest);
    let stale = goes(one, own);
    let left = len(one);
    let last = goes(one, next);
    first && !stale && left == 1 && last
}

// Freeze 3 stands under the first key, and in the other ledger under the second: its token there stands for it here.
fn finds_under_another_key(one: &mut Ledger, other: &mut Ledger) -> bool {
    let guest = 7;
    let twin_before = guest_takes(other, guest);
    let own = guest_takes(one, guest);
    let twin = guest_takes(other, guest);
    let found = goes(one, twin);
    let stale = goes(one, own);
    let left = len(one);
    let foreign = goes(one, twin_before);
    found && !stale && left == 0 && !foreign
}

pub fn keys_are_used_again(alloc: Global) -> Result<bool, AllocError> {
    let mut one = with_room(alloc)?;
    let mut other = with_room(alloc)?;
    let again = uses_a_key_again(&mut one, &mut other);
    Ok(finds_under_another_key(&mut one, &mut other) && again)
}

// Why nothing is decided. It relies on `engine_config` for queues and tables.

ghost use Rattle.std.specs.Prelude.{◌≡◌, IfNone, IfSome, MatchBool};
ghost use Rattle.world.specs.World.{has_classes};
ghost use Rattle.host_decision.specs.Faults.{AreFaultless, HasPlace, IsAmong, IsFault, IsFaultAmong, IsFaulty, IsPossible, IsSame, has_failed, may_have};

use base::OrMemory;
use ccb::CamStatus;
use engine_config::Config;
use show_question::{Question, TableWord};

/// The greatest clock reading.
pub const LAST_READING: u64 = 1 << 62;

/// What of a question an engine cannot take: of the first five the first one that holds.
#[derive(Clone, Copy, Debug)]
pub enum Undecided {
    /// There is no such queue.
    Queue,
    /// A CCB with such a status has not failed.
    Status,
    /// The clock cannot read so.
    Clock,
    /// The CCB has a class, and those of the configuration have none.
    Class,
    /// The word at this place, from 0, of those that are given: no table has it, or it was given before.
    Word(usize),
    /// An engine of the configuration cannot begin so, which no other of these says.
    Lines,
    /// Of all sense data is asked, and the sense data that is given has no response code of a known format.
    Sense,
}

/// Why nothing is decided: memory was refused, or it is that of the question.
pub type DecisionError = OrMemory<Undecided>;

/// What of the question an engine of this configuration cannot take, if there is anything.
pub(crate) fn fault_of(config: &Config, question: &Question) -> Option<Undecided>
    ensures possible { IfNone result (IsPossible config.now question.now) }
    ensures fault { IfSome result (IsFault config.now question.now) }
{
    if question.failure.queue.0 >= config.queues() {
        return Some(Undecided::Queue);
    }
    if !has_failed(question.failure.status) {
        return Some(Undecided::Status);
    }
    if question.failure.clock > LAST_READING {
        return Some(Undecided::Clock);
    }
    if !may_have(config, question.failure.class) {
        return Some(Undecided::Class);
    }
    faulty_word(config, &question.words)
}

// Whether a CCB with that status has failed.
fn has_failed(status: CamStatus) -> bool
    ensures { result ≡ has_failed status }
{
    match status {
        CamStatus::RequestCompleted | CamStatus::RequestInProgress => false,
        _ => true,
    }
}

// Whether a CCB may have that class.
fn may_have(config: &Config, class: u32) -> bool
    ensures { result ≡ may_have (has_classes config.now) class }
{
    if config.has_classes() {
        true
    } else {
        class == 0
    }
}

// The first word that cannot be.
fn faulty_word(config: &Config, words: &[TableWord]) -> Option<Undecided>
    ensures none { IfNone result (AreFaultless config.now words.now) }
    ensures fault { IfSome result (IsFaultAmong config.now words.now) }
{
    for place in 0..words.len() {
        if is_faulty(config, &words[..place], words[place]) {
            return Some(Undecided::Word(place));
        }
    }
    None
}

// Whether that word cannot be, after these.
fn is_faulty(config: &Config, before: &[TableWord], word: TableWord) -> bool
    ensures { MatchBool result (IsFaulty config.now before.now word) (IsFaulty config.now before.now word → ⊥) }
{
    if !has_word(config, word) {
        return true;
    }
    is_among(before, word)
}

/// Whether a table has such a word.
pub fn has_word(config: &Config, word: TableWord) -> bool
    ensures { MatchBool result (HasPlace config.now word) (HasPlace config.now word → ⊥) }
{
    match config.table_lengths().get(word.table as usize) {
        Some(length) => word.index < u32::from(*length),
        None => false,
    }
}

// Whether the same word of the same table is one of these.
fn is_among(words: &[TableWord], word: TableWord) -> bool
    ensures { MatchBool result (IsAmong words.now word) (IsAmong words.now word → ⊥) }
{
    for other in words {
        if is_same(*other, word) {
            return true;
        }
    }
    false
}

// Whether both are words of one place.
fn is_same(other: TableWord, word: TableWord) -> bool
    ensures { MatchBool result (IsSame other word) (IsSame other word → ⊥) }
{
    if other.table == word.table {
        other.index == word.index
    } else {
        false
    }
}

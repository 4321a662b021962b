// The words of the tables of another configuration. It relies on `engine_runs` for the words, and on `engine_config` for how long the tables
// are, and with which words they begin.

ghost use Rattle.std.specs.Prelude.{◌≡◌, ◌++◌, [], ◌∷◌, length, map, slice_index_or, IfOk, OnOk};
ghost use Rattle.std.specs.List.{range_with_len};
ghost use Rattle.engine_beginning.specs.Lines.{tables_from, words_from};
ghost use Rattle.engine_carried.specs.TakenOver.{are_same_words, first_words, keeps_words, table_length, words_over};

use crate::added::add;
use engine_config::Config;
use engine_runs::Runs;
use std::alloc::AllocError;
use world_calls::CarriedLine;

/// Adds a line for each word that is not 0, of each table: its present words if it keeps them, and those with which it begins else.
pub(crate) fn add_words(
    lines: &mut Vec<CarriedLine>,
    runs: &Runs,
    old: &Config,
    new: &Config,
) -> Result<(), AllocError>
    requires present { map (λ table. length table) runs.now.runs.tables ≡ old.now.limits.table_lengths }
    requires first { map (λ table. length table) new.now.tables ≡ new.now.limits.table_lengths }
    ensures { OnOk result (lines.new.items ≡ lines.old.items ++ tables_from 0 (map (words_over old.now new.now runs.now.runs.tables) (range_with_len 0 (length new.now.limits.table_lengths)))) }
{
    for table in 0..new.table_lengths().len() {
        let number = table_number(table)?;
        add_table(lines, runs, old, new, number)?;
    }
    Ok(())
}

// Returns the number of a table as lines have it. A configuration has 16 tables at most, but no contract says so of every configuration.
// More tables than u32 can count do not fit into memory, so that is what the error says.
fn table_number(table: usize) -> Result<u32, AllocError>
    ensures { IfOk result (λ number. number ≡ table) }
{
    match u32::try_from(table) {
        Ok(number) => Ok(number),
        Err(_) => Err(AllocError),
    }
}

// Adds the lines of one table.
fn add_table(
    lines: &mut Vec<CarriedLine>,
    runs: &Runs,
    old: &Config,
    new: &Config,
    table: u32,
) -> Result<(), AllocError>
    requires present { map (λ table. length table) runs.now.runs.tables ≡ old.now.limits.table_lengths }
    requires first { map (λ table. length table) new.now.tables ≡ new.now.limits.table_lengths }
    ensures { OnOk result (lines.new.items ≡ lines.old.items ++ words_from table 0 (words_over old.now new.now runs.now.runs.tables table)) }
{
    let words = table_length(new, table);
    if keeps_words(old, new, table) {
        add_kept(lines, runs, table, words)
    } else {
        add_first(lines, new, table, words)
    }
}

// Returns whether both configurations give the table the same length and the same first words.
fn keeps_words(old: &Config, new: &Config, table: u32) -> bool
    ensures { result ≡ keeps_words old.now new.now table }
{
    let words = table_length(new, table);
    table_length(old, table) == words && begins_alike(old, new, table, words)
}

// Returns whether the table begins with the same words in both, of which there are so many.
fn begins_alike(old: &Config, new: &Config, table: u32, words: u16) -> bool
    ensures { result ≡ are_same_words words (first_words old.now table) (first_words new.now table) }
{
    let number = table as usize;
    for index in 0..usize::from(words) {
        if old.first_word(number, index) != new.first_word(number, index) {
            return false;
        }
    }
    true
}

// Returns how many words a table of the configuration has, 0 if there is no such table.
fn table_length(config: &Config, table: u32) -> u16
    ensures { result ≡ table_length config.now table }
{
    config
        .table_lengths()
        .get(table as usize)
        .copied()
        .unwrap_or(0)
}

// Adds the lines of a table that keeps its words, of which there are so many.
fn add_kept(
    lines: &mut Vec<CarriedLine>,
    runs: &Runs,
    table: u32,
    words: u16,
) -> Result<(), AllocError>
    requires { length (slice_index_or runs.now.runs.tables table []) ≡ words }
    ensures { OnOk result (lines.new.items ≡ lines.old.items ++ words_from table 0 (slice_index_or runs.now.runs.tables table [])) }
{
    for index in 0..u32::from(words) {
        let word = runs.table_get(table as usize, index as usize);
        add_word(lines, table, index, word)?;
    }
    Ok(())
}

// Adds the lines of the words with which a table of the configuration begins, of which there are so many.
fn add_first(
    lines: &mut Vec<CarriedLine>,
    new: &Config,
    table: u32,
    words: u16,
) -> Result<(), AllocError>
    requires { length (first_words new.now table) ≡ words }
    ensures { OnOk result (lines.new.items ≡ lines.old.items ++ words_from table 0 (first_words new.now table)) }
{
    for index in 0..u32::from(words) {
        let word = new.first_word(table as usize, index as usize);
        add_word(lines, table, index, word)?;
    }
    Ok(())
}

// Adds the line of one word: a word that is 0 has none.
fn add_word(
    lines: &mut Vec<CarriedLine>,
    table: u32,
    index: u32,
    word: u64,
) -> Result<(), AllocError>
    ensures { OnOk result (lines.new.items ≡ lines.old.items ++ words_from table index (word ∷ [])) }
{
    if word == 0 {
        return Ok(());
    }
    add(lines, CarriedLine::Word { table, index, word })?;
    Ok(())
}

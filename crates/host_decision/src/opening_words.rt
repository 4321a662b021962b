// The words of the tables with which the engine begins. It relies on `table_store` for the tables, on `engine_config` for how long they are and
// with which words they begin, and on `show_question` for the words that are given.

ghost use Rattle.std.specs.Prelude.{◌≡◌, ◌++◌, [], ◌∷◌, length, map, slice_index_or, IfOk, OnOk};
ghost use Rattle.engine_beginning.specs.Lines.{tables_from, words_from};
ghost use Rattle.host_decision.specs.Asked.{written};
ghost use Rattle.host_decision.specs.Faults.{AreFaultless};

use crate::added::add;
use engine_config::Config;
use show_question::TableWord;
use std::alloc::{AllocError, Global};
use table_store::TableStore;
use world_calls::CarriedLine;

/// Returns the tables of the configuration with their first words, over which these words are written.
pub(crate) fn tables_of(
    alloc: Global,
    config: &Config,
    words: &[TableWord],
) -> Result<TableStore, AllocError>
    requires { AreFaultless config.now words.now }
    ensures words { IfOk result (λ tables. tables ≡ written config.now.tables words.now) }
    ensures lengths { IfOk result (λ tables. map (λ table. length table) tables ≡ config.now.limits.table_lengths) }
{
    let mut tables = first_tables(alloc, config)?;
    for word in words {
        tables.put(word.table as usize, word.index as usize, word.word);
    }
    Ok(tables)
}

// Returns the tables of the configuration with their first words.
fn first_tables(alloc: Global, config: &Config) -> Result<TableStore, AllocError>
    ensures words { IfOk result (λ tables. tables ≡ config.now.tables) }
    ensures lengths { IfOk result (λ tables. map (λ table. length table) tables ≡ config.now.limits.table_lengths) }
{
    TableStore::with_words(alloc, config.table_lengths(), config.first_words())
}

/// Adds a line for each word of the tables that is not 0. The tables are as long as those of the configuration.
pub(crate) fn add_tables(
    lines: &mut Vec<CarriedLine>,
    tables: &TableStore,
    config: &Config,
) -> Result<(), AllocError>
    requires { map (λ table. length table) tables.now ≡ config.now.limits.table_lengths }
    ensures { OnOk result (lines.new.items ≡ lines.old.items ++ tables_from 0 tables.now) }
{
    let lengths = config.table_lengths();
    for table in 0..lengths.len() {
        let number = table_number(table)?;
        add_table(lines, tables, number, lengths[table])?;
    }
    Ok(())
}

// Returns the number of a table as lines have it. A configuration has 16 tables at most, but no contract says so of every configuration.
// More tables than u32 can count do not fit into memory, so that is what the error says.
fn table_number(table: usize) -> Result<u32, AllocError>
    ensures { IfOk result (λ number. number ≡ table) }
{
    match u32::try_from(table) {
        Ok(number) => Ok(number),
        Err(_) => Err(AllocError),
    }
}

// Adds the lines of one table, of so many words.
fn add_table(
    lines: &mut Vec<CarriedLine>,
    tables: &TableStore,
    table: u32,
    words: u16,
) -> Result<(), AllocError>
    requires { length (slice_index_or tables.now table []) ≡ words }
    ensures { OnOk result (lines.new.items ≡ lines.old.items ++ words_from table 0 (slice_index_or tables.now table [])) }
{
    for index in 0..u32::from(words) {
        let word = tables.get(table as usize, index as usize);
        add_word(lines, table, index, word)?;
    }
    Ok(())
}

// Adds the line of one word: a word that is 0 has none.
fn add_word(
    lines: &mut Vec<CarriedLine>,
    table: u32,
    index: u32,
    word: u64,
) -> Result<(), AllocError>
    ensures { OnOk result (lines.new.items ≡ lines.old.items ++ words_from table index (word ∷ [])) }
{
    if word == 0 {
        return Ok(());
    }
    add(lines, CarriedLine::Word { table, index, word })?;
    Ok(())
}

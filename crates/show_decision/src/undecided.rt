// Why nothing is decided, in words. It relies on `host_decision` for why, and on `show_account` for the names of statuses.

use cli_text_page::Page;
use engine_config::Config;
use host_decision::{LAST_READING, Undecided, has_word};
use show_account::put_code;
use show_question::{Question, TableWord};

/// Puts why nothing is decided of the question, in one line.
pub fn put_undecided(undecided: Undecided, config: &Config, question: &Question, page: &mut Page) {
    match undecided {
        Undecided::Queue => {
            page.fill(
                "the manifest has no queue {}\n",
                &[u64::from(question.failure.queue.0)],
            );
        }
        Undecided::Status => {
            page.text("no policy runs: ");
            put_code(question.failure.status.code(), page);
            page.text(" is no failure\n");
        }
        Undecided::Clock => page.fill("the clock reads {} at most\n", &[LAST_READING]),
        Undecided::Class => page.fill(
            "the ccb has class {}, and only a manifest of version 3 gives classes\n",
            &[u64::from(question.failure.class)],
        ),
        Undecided::Word(place) => {
            if let Some(word) = question.words.get(place) {
                put_word(config, *word, page);
            }
        }
        Undecided::Lines => page.text("no engine of the manifest begins so\n"),
        Undecided::Sense => page.text(
            "the sense data begins with no response code from 70 to 73, for which --all-sense asks\n",
        ),
    }
}

// Puts why that word cannot be.
fn put_word(config: &Config, word: TableWord, page: &mut Page) {
    let pattern = if !has_word(config, word) {
        "the manifest has no word {} of table {}\n"
    } else {
        "word {} of table {} is given twice\n"
    };
    page.fill(pattern, &[u64::from(word.index), u64::from(word.table)]);
}

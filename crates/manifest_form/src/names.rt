// How many entries a manifest has, and the names of its programs.

ghost use Rattle.std.specs.Prelude.{◌≡◌, ◌==◌, map, count_by, bytes_eq};
ghost use Rattle.std.specs.List.{list_any, list_all};
ghost use Rattle.manifest_form.specs.Names.{has_lawful_numbers, has_lawful_names, is_name, is_of_names};
ghost use Rattle.manifest_form.specs.Seen.{plan_seen, are_lawful, are_known};

use crate::entries::{ProgramEntry, QueueEntry};
use crate::form::Plan;
use engine_config::{MAX_QUEUES, MAX_TABLES};

/// How many programs there may be.
const MAX_PROGRAMS: usize = 64;

/// How many characters a name may have.
const MAX_CHARACTERS: usize = 32;

/// Whether there are 1 to 64 queues, 1 to 64 programs, and up to 16 tables.
#[tactic(auto, unfolding(crate::specs::Names::has_lawful_numbers))]
pub fn has_lawful_numbers(plan: &Plan<'_>) -> bool
    ensures { result ≡ has_lawful_numbers (plan_seen plan.now) }
{
    (1..=MAX_QUEUES).contains(&plan.queues.len())
        && (1..=MAX_PROGRAMS).contains(&plan.programs.len())
        && plan.tables.len() <= MAX_TABLES
}

/// Whether each program has a name of the form, no two have the same, and each queue's program is one of them.
pub fn has_lawful_names(plan: &Plan<'_>) -> bool
    ensures { result ≡ has_lawful_names (plan_seen plan.now) }
{
    let programs = plan.programs.as_slice();
    are_lawful(programs) && are_known(plan.queues.as_slice(), programs)
}

// Each program has a name of the form, and no two have the same.
fn are_lawful(programs: &[ProgramEntry<'_>]) -> bool
    ensures { result ≡ are_lawful programs.now }
{
    has_names(programs) && are_alone(programs)
}

fn has_names(programs: &[ProgramEntry<'_>]) -> bool
    ensures { result ≡ list_all (λ program. is_name program.name.now) programs.now }
{
    programs.iter().all(|program| is_name(program.name))
}

/// A name has 1 to 32 of the characters a to z, 0 to 9, `_` and `-`.
#[tactic(auto, unfolding(crate::specs::Names::is_name))]
fn is_name(name: &str) -> bool
    ensures { result ≡ is_name name.now }
{
    (1..=MAX_CHARACTERS).contains(&name.len()) && has_characters_of_names(name)
}

fn has_characters_of_names(name: &str) -> bool
    ensures { result ≡ list_all is_of_names name.now }
{
    name.bytes().all(is_of_names)
}

fn is_of_names(byte: u8) -> bool
    ensures { result ≡ is_of_names byte }
{
    matches!(byte, b'a'..=b'z' | b'0'..=b'9' | b'_' | b'-')
}

fn are_alone(programs: &[ProgramEntry<'_>]) -> bool
    ensures { result ≡ list_all (λ program. count_by (λ other. bytes_eq other.name.now program.name.now) programs.now == 1) programs.now }
{
    programs
        .iter()
        .all(|program| is_alone(program.name, programs))
}

// One program alone has the name.
fn is_alone(name: &str, programs: &[ProgramEntry<'_>]) -> bool
    ensures { result ≡ (count_by (λ other. bytes_eq other.name.now name.now) programs.now == 1) }
{
    programs.iter().filter(|other| other.name == name).count() == 1
}

fn is_known(name: &str, programs: &[ProgramEntry<'_>]) -> bool
    ensures { result ≡ list_any (λ other. bytes_eq other.name.now name.now) programs.now }
{
    programs.iter().any(|other| other.name == name)
}

fn are_known(queues: &[QueueEntry<'_>], programs: &[ProgramEntry<'_>]) -> bool
    ensures { result ≡ are_known queues.now programs.now }
{
    queues.iter().all(|queue| is_known(queue.program, programs))
}

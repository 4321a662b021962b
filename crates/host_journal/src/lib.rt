// A journal: a folder of segments, each the text of one trace, and beside each the manifest in force in it. It relies on `host_recovery` for
// what a crash leaves of a segment, on `host_live` for the engine that goes on, and on `manifest` for its configuration.
#![tactic(auto)]

mod answer;
mod answered;
mod auditing;
mod beginning;
mod comparing;
mod disk;
mod fault;
mod following;
mod journaled;
mod last_line;
mod left;
mod listing;
mod lost;
mod making;
mod manifests;
mod names;
mod opening;
mod order;
mod putting;
mod replaying;
mod serving;
mod source;
mod text;

pub use answer::answer_to;
pub use auditing::{Audited, audit};
pub use beginning::{Begun, begin};
pub use disk::{Disk, DiskFault};
pub use fault::{JournalError, JournalFault, JournalFile};
pub use following::{NextManifest, follow, manifest_of};
pub use making::{first_engine, first_text};
pub use opening::open;
pub use serving::serve;

// A trace as data, in JSON (RFC 8259): its account, an object a line and event, and the parts of JSON that other forms of it need. It relies on
// `show_events` for the events, on `show_account` for which of them are wanted, and on `cli_text_page` for the page that JSON is put on.
#![tactic(auto)]

mod account;
mod carried;
mod event;
mod json;
mod kinds;
mod reported;

pub use account::{put_ending, write_account};
pub use carried::put_carried;
pub use event::{OPENINGS, put_facts};
pub use json::Json;
pub use kinds::{helper_of, kind_of};
pub use reported::{
    put_advice_word, put_code, put_helper, put_holder, put_place, put_scsi_status, put_sense_code,
};

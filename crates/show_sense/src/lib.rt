// SCSI statuses and sense data in words: the names of statuses and of sense keys, and the sense code that sense data has. It relies on
// `sense_record` for key, ASC and ASCQ, and on `cli_text_page` for the page that words are put on.
#![tactic(auto)]

mod code;
mod names;

pub use code::{SenseCode, put_sense, sense_code};
pub use names::{put_scsi_status, scsi_status_name, sense_key_name};

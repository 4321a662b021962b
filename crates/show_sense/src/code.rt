// The sense code of sense data. It relies on `sense_record` for its parts, and on `names` for the name of its key.

use crate::names::sense_key_name;
use cli_text_page::Page;

/// What sense data reports: whether the error is deferred, which means that it belongs to an earlier command; and the sense key, the
/// additional sense code and its qualifier.
#[derive(Clone, Copy)]
pub struct SenseCode {
    pub is_deferred: bool,
    pub key: u8,
    pub asc: u8,
    pub ascq: u8,
}

impl SenseCode {
    /// Its number in the order of all sense codes, below 2 ^ 21: current errors before deferred ones, then by key, ASC and ASCQ.
    pub fn order(self) -> u32 {
        let deferred = if self.is_deferred { 0x10_0000 } else { 0 };
        let key = u32::from(self.key & 0x0f) * 0x1_0000;
        let asc = u32::from(self.asc) * 0x100;
        deferred + key + asc + u32::from(self.ascq)
    }
}

/// The sense code of sense data of the fixed or the descriptor format. None if there is no byte, or if the response code is none of these
/// formats.
pub fn sense_code(bytes: &[u8]) -> Option<SenseCode> {
    let response = bytes.first().copied().unwrap_or(0) & 0x7f;
    if !(0x70..=0x73).contains(&response) {
        return None;
    }
    let sense = sense_record::read(bytes);
    Some(SenseCode {
        is_deferred: response == 0x71 || response == 0x73,
        key: sense.key,
        asc: sense.asc,
        ascq: sense.ascq,
    })
}

/// Puts a sense code, as `UNIT ATTENTION 29/00`, or with `deferred ` before it.
pub fn put_sense(code: SenseCode, page: &mut Page) {
    page.text(if code.is_deferred { "deferred " } else { "" });
    page.text(sense_key_name(code.key));
    page.text(" ");
    page.byte(code.asc);
    page.text("/");
    page.byte(code.ascq);
}

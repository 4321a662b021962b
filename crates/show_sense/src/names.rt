// The names of SCSI statuses, as the SCSI Architecture Model (SAM) has them, and of sense keys, as the SCSI Primary Commands standard (SPC)
// has them. It relies on `cli_text_page` for the page.

use cli_text_page::Page;

/// The name of a SCSI status; nothing if no status has that byte. Three of them are obsolete, and targets of older standards report them
/// still.
pub fn scsi_status_name(status: u8) -> &'static str {
    match status {
        0x00 => "GOOD",
        0x02 => "CHECK CONDITION",
        0x04 => "CONDITION MET",
        0x08 => "BUSY",
        0x10 => "INTERMEDIATE",
        0x14 => "INTERMEDIATE-CONDITION MET",
        0x18 => "RESERVATION CONFLICT",
        0x22 => "COMMAND TERMINATED",
        0x28 => "TASK SET FULL",
        0x30 => "ACA ACTIVE",
        0x40 => "TASK ABORTED",
        _ => "",
    }
}

/// The names of the sense keys, in their order.
const SENSE_KEYS: [&str; 16] = [
    "NO SENSE",
    "RECOVERED ERROR",
    "NOT READY",
    "MEDIUM ERROR",
    "HARDWARE ERROR",
    "ILLEGAL REQUEST",
    "UNIT ATTENTION",
    "DATA PROTECT",
    "BLANK CHECK",
    "VENDOR SPECIFIC",
    "COPY ABORTED",
    "ABORTED COMMAND",
    "RESERVED",
    "VOLUME OVERFLOW",
    "MISCOMPARE",
    "COMPLETED",
];

/// The name of a sense key, from 0 to 15; nothing beyond them.
pub fn sense_key_name(key: u8) -> &'static str {
    match SENSE_KEYS.get(key as usize) {
        Some(name) => name,
        None => "",
    }
}

/// Puts the two digits of a SCSI status and its name, as `28 TASK SET FULL`; the digits alone if it has no name.
pub fn put_scsi_status(status: u8, page: &mut Page) {
    page.byte(status);
    let name = scsi_status_name(status);
    page.text(if name.is_empty() { "" } else { " " });
    page.text(name);
}

// How the answer to a line is spelled. It relies on `trace_lines` for numbers and for the place of a text.

ghost use Rattle.std.specs.Prelude.{◌≡◌, ◌≤◌, Option, length};
ghost use Rattle.host_journal.specs.Order.{answer_text, code_text};

use host_live::LineFault;
use trace_lines::{Text, print_long_number};

/// The answer to the line of that number: it was carried out, or why not.
pub fn answer_to(line: usize, fault: Option<LineFault>) -> Text
    ensures { result ≡ answer_text line fault }
{
    let mut text = Text::none();
    match fault {
        None => {
            text.put(b". ");
            print_long_number(line as u64, &mut text);
        }
        Some(fault) => {
            text.put(b"! ");
            print_long_number(line as u64, &mut text);
            text.put(b" ");
            text.put(code(fault));
        }
    }
    text.push(b'\n');
    text
}

// The code of a line that is not carried out.
fn code(fault: LineFault) -> &'static [u8]
    ensures code { result.now ≡ code_text fault }
    ensures few { length result.now ≤ 8 }
{
    match fault {
        LineFault::Form => b"N1",
        LineFault::NotHeld => b"N2",
        LineFault::RunLive => b"N3",
        LineFault::DoesNotFit => b"N4",
        LineFault::Manifest => b"manifest",
    }
}

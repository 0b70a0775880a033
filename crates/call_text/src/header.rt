//! The first line of a script.

ghost use Rattle.std.specs.Prelude.{◌≡◌, Ok, IfOk, IfErr};
ghost use Rattle.schedule_text.specs.Reading.{Gives};
ghost use Rattle.schedule_text.specs.Fault.{IsColumn};
ghost use Rattle.call_text.specs.declared.call.Header.{Header};
ghost use Rattle.call_text.specs.Header.{IsHeader, IsHeaderText, header};
ghost use Rattle.call_text.specs.Grammar.{maps_at, header_at};

use crate::call::Header;
use crate::words::{FLAVOURS, MAPS};
use schedule_text::{NINE, TextFault, column_of, ended_number, number, word};

/// Whether lists and tables write the chains, after the byte that ended the last number.
fn front_maps(end: u8, text: &[u8]) -> Result<(bool, &[u8]), &[u8]>
    ensures { Gives (λ m. m) result (maps_at end text.now) }
{
    if end == b'\n' {
        return Ok((false, text));
    }
    word(&MAPS, text)
}

/// The header at the front of the text, and what comes after it; or the bytes from the first bad one on, of which there
/// are none where the text may go on. Its numbers may be out of their limits.
#[tactic(auto, unfolding(crate::specs::Grammar::header_at))]
pub fn front_header(text: &[u8]) -> Result<(Header, &[u8]), &[u8]>
    ensures { Gives (λ h. h) result (header_at text.now) }
{
    let (qsbr, rest) = word(&FLAVOURS, text)?;
    let (slots, rest) = number(b' ', rest)?;
    let (queues, rest) = number(b' ', rest)?;
    let (chains, rest) = number(b' ', rest)?;
    let ((pool, end), rest) = ended_number(NINE, b'\n', b' ', rest)?;
    let (maps, rest) = front_maps(end, rest)?;
    let header = Header {
        qsbr,
        slots,
        queues,
        chains,
        pool: pool as u32,
        maps,
    };
    Ok((header, rest))
}

/// The header that the text is, with its line feed. `TextFault` where it is none, at the column of its first byte with
/// which no header goes on.
pub fn read_header(text: &[u8]) -> Result<Header, TextFault>
    ensures found { IfOk result (λ h. IsHeader h × (text.now ≡ header h)) }
    ensures only { (h : Header) → IsHeader h → text.now ≡ header h → result ≡ Ok h }
    ensures column { IfErr result (λ fault. IsColumn IsHeaderText text.now fault.column) }
{
    match front_header(text) {
        Ok((header, rest)) => {
            if rest.is_empty() {
                Ok(header)
            } else {
                let column = column_of(text, rest);
                Err(TextFault { column })
            }
        }
        Err(bad) => {
            let column = column_of(text, bad);
            Err(TextFault { column })
        }
    }
}

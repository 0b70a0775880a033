//! The first line of a schedule.

ghost use Rattle.schedule_text.specs.Reading.{Gives};
ghost use Rattle.schedule_text.specs.Grammar.{header_at};

use crate::pieces::{number, word};
use crate::words::{FLAVOURS, LAYOUTS};
use world_state::Config;

/// The header at the front of the text, and what comes after it; or the bytes from the first bad one on, of which there
/// are none where the text may go on. Its numbers may be out of their limits.
#[tactic(auto, unfolding(crate::specs::Grammar::header_at))]
pub fn front_header(text: &[u8]) -> Result<(Config, &[u8]), &[u8]>
    ensures { Gives (λ c. c) result (header_at text.now) }
{
    let (layout, rest) = word(&LAYOUTS, text)?;
    let (flavour, rest) = word(&FLAVOURS, rest)?;
    let (readers, rest) = number(b' ', rest)?;
    let (updaters, rest) = number(b' ', rest)?;
    let (workers, rest) = number(b' ', rest)?;
    let (chains, rest) = number(b'\n', rest)?;
    let config = Config {
        layout,
        flavour,
        readers,
        updaters,
        workers,
        chains,
    };
    Ok((config, rest))
}

ghost use Rattle.std.specs.Prelude.{◌≡◌, IfOk};
ghost use Rattle.dx_streams.specs.Summaries.{summary_text};

use dx_print::{push_hex, push_number, push_text};
use dx_types::{List, NoMemory};
use std::alloc::Global;

/// The two lines that a run over itself writes: how many lines its scenario has, and the digest of the
/// transcript. `NoMemory` where there is no memory for them.
pub fn summary(alloc: Global, lines: u64, digest: &[u8; 32]) -> Result<List<u8>, NoMemory>
    ensures { IfOk result (λ text. text ≡ summary_text lines digest.now) }
{
    let mut out = Vec::new(alloc);
    push_text(&mut out, "lines")?;
    push_number(&mut out, lines)?;
    push_text(&mut out, "\nsha256")?;
    push_hex(&mut out, digest)?;
    push_text(&mut out, "\n")?;
    Ok(List::from_vec(out))
}

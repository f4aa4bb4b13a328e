ghost use Rattle.std.specs.Prelude.{◌≡◌, IfOk};
ghost use Rattle.desk.specs.Requests.{HeardText};

use crate::terminal::Terminal;
use std::alloc::{AllocError, Global};

// How the line begins that ends a request.
const LAST_KEY: &[u8] = b"sweeps=";

/// Hears the text of a request: all lines up to the first that names the sweeps, or to the end.
pub fn hear_request<L: Terminal>(heap: Global, terminal: &mut L) -> Result<Vec<u8>, AllocError>
    ensures text { IfOk result (λ text. HeardText (L.heard terminal.old) (L.heard terminal.new)
        (L.ended terminal.new) text.items) }
    ensures said { L.said terminal.new ≡ L.said terminal.old }
{
    let mut text = Vec::new(heap);
    while let Some(line) = terminal.hear() {
        text.extend_from_slice(line.as_slice())?;
        if line.as_slice().starts_with(LAST_KEY) {
            break;
        }
    }
    Ok(text)
}

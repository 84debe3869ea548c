// A refusal in words.
ghost use Rattle.std.specs.Prelude.{◌≡◌, IfOk, string_bytes};
ghost use Rattle.texts.specs.Text.{refusal_line};

use layout::Refusal;
use std::alloc::{AllocError, Global};

// Why something is refused, as one line: the number of the cause and the place of the fault.
pub fn refusal_text(heap: Global, refusal: Refusal) -> Result<String, AllocError>
    ensures { IfOk result (λ s. string_bytes s ≡ refusal_line refusal) }
{
    let number = refusal.number();
    let place = refusal.place();
    format!(in heap; "refused {number} at {place}\n")
}

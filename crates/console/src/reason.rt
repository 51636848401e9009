// What the record line of a trace says of why a move ended.
ghost use Rattle.std.specs.Prelude.{◌≡◌};
ghost use Rattle.console.specs.ReasonText.{reason_word, reason_text};
ghost use Rattle.text.specs.Text.{Holds};

use control::reason::Reason;
use text::put::put_word;

// The reason's word.
#[tactic(auto, unfolding(crate::specs::ReasonText::reason_word))]
fn reason_word(reason: Reason) -> &'static [u8]
    ensures { result.now ≡ reason_word reason }
{
    match reason {
        Reason::NoneYet => b"none",
        Reason::CountReached => b"count",
        Reason::Nack => b"nack",
        Reason::Outside => b"outside",
        Reason::ArbitrationLost => b"arbitration",
        Reason::Fault => b"fault",
        Reason::Reset => b"reset",
    }
}

// ` reason nack`
#[tactic(auto, using(text::proofs::Holds::joins), unfolding(crate::specs::ReasonText::reason_text))]
pub fn put_reason(text: &mut [u8], at: usize, reason: Reason) -> usize
    ensures { Holds at (reason_text reason) text.old text.new result }
{
    let next = put_word(text, at, b" reason ");
    put_word(text, next, reason_word(reason))
}

// The out record, which begins with the bytes sent.
ghost use Rattle.std.specs.Prelude.{List, ◌∷◌, ◌≡◌, ℕ, ◌+◌, ◌<◌, eqb, length};
ghost use Rattle.notation.specs.Choice.{when◌then◌else◌};
ghost use Rattle.notation.specs.Overlay.{laid_at};

// Event 6 sent a byte: it is put at its place, if there is one. Gives how many bytes are sent now. (A count beside
// `out`, which is lent by the caller: `run_job` promises both, and no heap holds them.)
pub(crate) fn note(out: &mut [u8], sent: usize, event: u8, value: u8) -> usize
    requires { sent < 0xFFFFFFFFFFFFFFFF }
    ensures next { result ≡ (when eqb event 6 then sent + 1 else sent) }
    ensures room { length out.new ≡ length out.old }
    ensures noted { (later : List ℕ) → laid_at result later out.new ≡ laid_at sent (when eqb event 6 then value ∷ later else later) out.old }
{
    if event != 6 {
        return sent;
    }
    if sent < out.len() {
        out[sent] = value;
    }
    sent + 1
}

// The functions that C and Rust call for a virtual chip: a controller in lent bytes.
ghost use Rattle.std.specs.Prelude.{◌≡◌, ◌+◌, ◌*◌, length};
ghost use Rattle.answer.specs.Refusal.{refusal_of, value_of};
ghost use Rattle.notation.specs.Overlay.{laid};
ghost use Rattle.perlovasta.specs.Job.{chip_job_call, chip_after_job};
ghost use Rattle.virtual_chip.specs.Calls.{fresh_call, access_call};

use crate::job::run_reported;
use answer::ending::Ending;
use answer::{Answer, refusal_of, value_of};
use requests::groups::Request;
use virtual_chip::calls::{ask, make_fresh};
use virtual_chip::record::load;

// An answer as C has it, in one number: the refusal, 0 for accepted, and 256 times the value.
fn packed(answer: Answer) -> u32
    ensures { result ≡ refusal_of answer + 256 * value_of answer }
{
    u32::from(refusal_of(answer)) + 256 * u32::from(value_of(answer))
}

// A fresh controller: 0, or 10 where there is no room for it.
#[tactic(auto, unfolding(virtual_chip::specs::Calls::made_number))]
pub fn perlovasta_chip_fresh(chip: &mut [u8]) -> u8
    ensures answer { result ≡ (fresh_call chip.old).answer }
    ensures chip { chip.new ≡ laid (fresh_call chip.old).bytes chip.old }
{
    match make_fresh(chip) {
        Ok(()) => 0,
        Err(why) => why.number(),
    }
}

// A register is read: the refusal, and 256 times the value.
pub fn perlovasta_chip_read_packed(chip: &mut [u8], register: u8) -> u32
    ensures answer { result ≡ (access_call chip.old 0 register 0).answer }
    ensures chip { chip.new ≡ laid (access_call chip.old 0 register 0).bytes chip.old }
{
    packed(ask(chip, Request::Read(register)))
}

// The same of a write.
pub fn perlovasta_chip_write_packed(chip: &mut [u8], register: u8, value: u8) -> u32
    ensures answer { result ≡ (access_call chip.old 1 register value).answer }
    ensures chip { chip.new ≡ laid (access_call chip.old 1 register value).bytes chip.old }
{
    packed(ask(chip, Request::Write(register, value)))
}

// The same of an event.
pub fn perlovasta_chip_event_packed(chip: &mut [u8], event: u8, argument: u8) -> u32
    ensures answer { result ≡ (access_call chip.old 2 event argument).answer }
    ensures chip { chip.new ≡ laid (access_call chip.old 2 event argument).bytes chip.old }
{
    packed(ask(chip, Request::Event(event, argument)))
}

// A job on this controller, as `perlovasta_job` runs one on a fresh one.
pub fn perlovasta_chip_job(
    chip: &mut [u8],
    kind: u8,
    address: u8,
    n: u8,
    payload: &[u8],
    destination: &mut [u8],
    out: &mut [u8],
    script: &[u8],
    report: &mut [u8],
) -> u8
    ensures answer { result
        ≡ (chip_job_call chip.old kind address n payload.now
        (length destination.old) (length out.old) script.now (length report.old)).answer }
    ensures handed { destination.new
        ≡ laid (chip_job_call chip.old kind address n payload.now
        (length destination.old) (length out.old)
        script.now (length report.old)).handed destination.old }
    ensures sent { out.new
        ≡ laid (chip_job_call chip.old kind address n payload.now
        (length destination.old) (length out.old) script.now (length report.old)).sent out.old }
    ensures told { report.new
        ≡ laid (chip_job_call chip.old kind address n payload.now
        (length destination.old) (length out.old) script.now (length report.old)).told report.old }
    ensures chip { chip.new
        ≡ laid (chip_after_job chip.old kind address n payload.now
        (length destination.old) (length out.old) script.now (length report.old)) chip.old }
{
    let Some(report) = report.first_chunk_mut() else {
        return Ending::Malformed.number();
    };
    let c = load(chip);
    run_reported(
        c,
        kind,
        address,
        n,
        payload,
        destination,
        out,
        script,
        report,
        chip,
    )
}

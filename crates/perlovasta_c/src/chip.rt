// The functions that C and Rust call for a virtual chip: a controller in lent bytes.
ghost use Rattle.std.specs.Prelude.{◌≡◌, length};
ghost use Rattle.notation.specs.Overlay.{laid};
ghost use Rattle.perlovasta.specs.Job.{chip_job_call, chip_after_job};
ghost use Rattle.virtual_chip.specs.Calls.{fresh_call, access_call};

use perlovasta::chip;

// A fresh controller: 0, or 10 where there is no room for it.
#[unsafe(no_mangle)]
pub extern "C" fn perlovasta_chip_fresh(chip: &mut [u8]) -> u8
    ensures answer { result ≡ (fresh_call chip.old).answer }
    ensures chip { chip.new ≡ laid (fresh_call chip.old).bytes chip.old }
{
    chip::perlovasta_chip_fresh(chip)
}

// A register is read: the refusal, and 256 times the value.
#[unsafe(no_mangle)]
pub extern "C" fn perlovasta_chip_read_packed(chip: &mut [u8], register: u8) -> u32
    ensures answer { result ≡ (access_call chip.old 0 register 0).answer }
    ensures chip { chip.new ≡ laid (access_call chip.old 0 register 0).bytes chip.old }
{
    chip::perlovasta_chip_read_packed(chip, register)
}

// The same of a write.
#[unsafe(no_mangle)]
pub extern "C" fn perlovasta_chip_write_packed(chip: &mut [u8], register: u8, value: u8) -> u32
    ensures answer { result ≡ (access_call chip.old 1 register value).answer }
    ensures chip { chip.new ≡ laid (access_call chip.old 1 register value).bytes chip.old }
{
    chip::perlovasta_chip_write_packed(chip, register, value)
}

// The same of an event.
#[unsafe(no_mangle)]
pub extern "C" fn perlovasta_chip_event_packed(chip: &mut [u8], event: u8, argument: u8) -> u32
    ensures answer { result ≡ (access_call chip.old 2 event argument).answer }
    ensures chip { chip.new ≡ laid (access_call chip.old 2 event argument).bytes chip.old }
{
    chip::perlovasta_chip_event_packed(chip, event, argument)
}

// A job on this controller, as `perlovasta_job` runs one on a fresh one.
#[unsafe(no_mangle)]
pub extern "C" fn perlovasta_chip_job(
    chip: &mut [u8],
    kind: u8,
    address: u8,
    n: u8,
    payload: &[u8],
    destination: &mut [u8],
    out: &mut [u8],
    script: &[u8],
    report: &mut [u8],
) -> u8
    ensures answer { result
        ≡ (chip_job_call chip.old kind address n payload.now
        (length destination.old) (length out.old) script.now (length report.old)).answer }
    ensures handed { destination.new
        ≡ laid (chip_job_call chip.old kind address n payload.now
        (length destination.old) (length out.old)
        script.now (length report.old)).handed destination.old }
    ensures sent { out.new
        ≡ laid (chip_job_call chip.old kind address n payload.now
        (length destination.old) (length out.old) script.now (length report.old)).sent out.old }
    ensures told { report.new
        ≡ laid (chip_job_call chip.old kind address n payload.now
        (length destination.old) (length out.old) script.now (length report.old)).told report.old }
    ensures chip { chip.new
        ≡ laid (chip_after_job chip.old kind address n payload.now
        (length destination.old) (length out.old) script.now (length report.old)) chip.old }
{
    chip::perlovasta_chip_job(
        chip,
        kind,
        address,
        n,
        payload,
        destination,
        out,
        script,
        report,
    )
}

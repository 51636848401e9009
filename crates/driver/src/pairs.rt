// The run over the script's pairs.
ghost use Rattle.std.specs.Prelude.{true, ◌≡◌, length};
ghost use Rattle.controller.specs.Record.{sound};
ghost use Rattle.driver.specs.Run.{result_of, run};
ghost use Rattle.notation.specs.Overlay.{laid};
ghost use Rattle.service.specs.JobTable.{job_table};
ghost use Rattle.service.specs.Serve.{serve};

use crate::out_record::note;
use crate::result::JobResult;
use answer::ending::Ending;
use service::job::Job;
use service::progress::Progress;

// The work after a pair: event 14 and own STOP end the job, and at F8h it waits.
fn serve(p: &mut Progress, job: Job, payload: &[u8], event: u8)
    requires { sound p.old.controller ≡ true }
    ensures { p.new ≡ serve (job_table job payload.now) event p.old }
{
    match event {
        14 => p.end(Ending::Reset),
        4 => p.over = true,
        _ => {
            let status = p.controller.turn.status();
            // (A name: wrong programs change what it is, and the goals below keep theirs.)
            let idle = status == 0xF8;
            if !idle {
                p.work_at(job, payload, status);
            }
        }
    }
}

// Takes pairs while the job lasts; what the loop breaks with is the job's answer. (A `for` over the pairs could break with none.)
pub(crate) fn run_pairs(
    p: &mut Progress,
    job: Job,
    payload: &[u8],
    out: &mut [u8],
    script: &[u8],
) -> JobResult
    requires { p.old.events ≡ 0 }
    ensures result { result_of result ≡ (run (job_table job payload.now) p.old script.now).result }
    ensures fetched { p.new.fetched ≡ (run (job_table job payload.now) p.old script.now).fetched }
    ensures sent { out.new ≡ laid (run (job_table job payload.now) p.old script.now).sent out.old }
    ensures number { result.sent ≡ length (run (job_table job payload.now) p.old script.now).sent }
{
    let mut left = script;
    let mut sent = 0;
    loop {
        let [event, argument, rest @ ..] = left else {
            p.end(Ending::Unfinished);
            break JobResult::of(p, sent);
        };
        left = rest;
        match p.controller.on_event(*event, *argument) {
            Ok(value) => sent = note(out, sent, *event, value),
            Err(why) => {
                p.end(Ending::Refused(why));
                break JobResult::of(p, sent);
            }
        }
        p.events += 1;
        serve(p, job, payload, *event);
        if p.over {
            break JobResult::of(p, sent);
        }
    }
}

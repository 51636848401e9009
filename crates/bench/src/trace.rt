// A trace: groups worked one after the other on a fresh controller.
ghost use Rattle.std.specs.Prelude.{◌≤◌, length};

use crate::group::{Group, is_bad, split_group};
use crate::print::print;
use crate::state::{print_buffer, print_reply, print_state};
use console::fixed::tell_job;
use controller::record::Controller;
use requests::groups::access;
use text::Text;

// The longest trace.
const LIMIT: usize = 65536;

// One group: the record after it. Of a job its three lines are printed and the state after it.
fn work_group(rt: &impl Print, c: Controller, group: Group<'_>) -> Controller {
    match group {
        Group::Access { kind, place, value } => {
            let reply = access(c, kind, place, value);
            print_reply(rt, &c, kind, place, value, &reply);
            reply.controller
        }
        Group::Job {
            job,
            payload,
            script,
        } => {
            let mut text: Text<1024> = Text::new();
            let next = tell_job(c, job, payload, script, &mut text);
            print(rt, &text);
            print_state(rt, &next);
            next
        }
    }
}

// Works the groups up to the first that is cut short or of another kind: the record after them, and what is left of the trace.
fn work_all<'a>(rt: &impl Print, start: Controller, groups: &'a [u8]) -> (Controller, &'a [u8])
    ensures { length result.1.now ≤ length groups.now }
{
    let mut c = start;
    let mut rest = groups;
    while let Some((group, after)) = split_group(rest) {
        c = work_group(rt, c, group);
        rest = after;
    }
    (c, rest)
}

// Works the trace's groups on a fresh controller. A first group 04 V: every place of its buffer holds V.
fn work_from_start<'a>(rt: &impl Print, trace: &'a [u8]) -> (Controller, &'a [u8])
    ensures { length result.1.now ≤ length trace.now }
{
    let fresh = Controller::fresh();
    match trace {
        [4, filling, _, groups @ ..] => work_all(
            rt,
            Controller {
                buffer: [*filling; 68],
                ..fresh
            },
            groups,
        ),
        _ => work_all(rt, fresh, trace),
    }
}

// Works a trace and prints what it shows. Where it went wrong: at a group of another kind, at one that its end cuts, or at the limit.
pub(crate) fn run(rt: &impl Print, whole: &[u8]) {
    let trace = &whole[..whole.len().min(LIMIT)];
    let over = LIMIT < whole.len();
    let (c, left) = work_from_start(rt, trace);
    if !left.is_empty() || over {
        let at = if over && !is_bad(left) {
            LIMIT
        } else {
            trace.len() - left.len()
        };
        let _ = println!(rt; "bad trace at {at}");
    }
    print_buffer(rt, &c);
}

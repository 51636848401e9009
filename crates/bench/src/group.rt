// The groups of a trace.
ghost use Rattle.std.specs.Prelude.{◌<◌, length, IfSome};

use requests::jobs::{data_len, job_for};
use service::job::Job;

// A whole group.
pub(crate) enum Group<'a> {
    // KIND PLACE VALUE, for kind 0 to 2: an access or an event. (Bytes, and no `Request`: `put_ward_note` is given them, a read's third too.)
    Access {
        kind: u8,
        place: u8,
        value: u8,
    },
    // 03 KIND ADDRESS N, data for a write, the number of pairs in two bytes, the pairs.
    Job {
        job: Job,
        payload: &'a [u8],
        script: &'a [u8],
    },
}

// The group that the rest of a trace begins with, and what follows it; none where the trace ends in it or it is of another kind.
pub(crate) fn split_group(rest: &[u8]) -> Option<(Group<'_>, &[u8])>
    ensures { IfSome result (λ parts. length parts.1.now < length rest.now) }
{
    match rest {
        [3, kind @ 0..=1, address, n, rest @ ..] => {
            let job = job_for(*kind, *address, *n);
            let (payload, rest) = rest.split_at_checked(data_len(job))?;
            let (pairs, rest) = rest.split_first_chunk::<2>()?;
            let (script, rest) = rest.split_at_checked(2 * u16::from_le_bytes(*pairs) as usize)?;
            Some((
                Group::Job {
                    job,
                    payload,
                    script,
                },
                rest,
            ))
        }
        [kind @ 0..=2, place, value, rest @ ..] => {
            Some((
                Group::Access {
                    kind: *kind,
                    place: *place,
                    value: *value,
                },
                rest,
            ))
        }
        _ => None,
    }
}

// The group is of another kind, as far as the trace tells.
pub(crate) fn is_bad(rest: &[u8]) -> bool {
    match rest {
        [3, kind, ..] => 1 < *kind,
        [kind, _, _, ..] => 2 < *kind,
        _ => false,
    }
}

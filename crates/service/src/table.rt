// The table of a read or write job: its first accesses, and what is done at each status.
ghost use Rattle.std.specs.Prelude.{◌≡◌};
ghost use Rattle.service.specs.Act.{performs};
ghost use Rattle.service.specs.JobSteps.{begins, count_of};
ghost use Rattle.service.specs.JobTable.{job_table};
ghost use Rattle.service.specs.Serve.{starts};

use crate::job::Job;
use crate::progress::Progress;
use address::number::Direction;
use answer::ending::Ending;
use block::write_block;
use controller::record::Controller;

// I2CCOUNT for n bytes: LB is set for a read.
#[tactic(auto, unfolding(crate::specs::JobSteps::count_of))]
pub fn count_of(direction: Direction, n: u8) -> u8
    ensures { result ≡ count_of direction n }
{
    match direction {
        Direction::Write => n,
        Direction::Read => 128 + n % 128,
    }
}

// A job begins: I2CCOUNT set and a START asked for, nothing read back, no pair taken.
#[tactic(auto, unfolding(crate::specs::Serve::starts, crate::specs::Act::does_all, crate::specs::Progress::starting))]
pub fn start(job: Job, controller: Controller) -> Progress
    ensures { result ≡ starts (begins job) controller }
{
    let mut p = Progress {
        controller,
        over: false,
        ending: Ending::Unfinished,
        count: 0,
        events: 0,
        fetched: [0; 68],
    };
    p.write(0, 0x00);
    p.write(2, count_of(job.direction, job.n));
    p.write(3, 0x60);
    p
}

impl Progress {
    // The work at each status.
    pub fn work_at(&mut self, job: Job, payload: &[u8], status: u8)
        ensures { self.new ≡ performs (job_table job payload.now status self.old.count) self.old }
    {
        match status {
            0x08 => {
                self.write(1, job.address.byte(job.direction).0);
                self.write(3, 0x40);
            }
            0x18 => {
                let n = (job.n as usize).min(payload.len());
                write_block(&mut self.controller, &payload[..n]);
                self.write(3, 0x41);
            }
            0x40 => self.write(3, 0x41),
            0x20 | 0x48 => {
                self.count = 0;
                self.stop(Ending::AddressNacked);
            }
            0x28 => {
                self.count = job.n;
                self.stop(Ending::Done);
            }
            0x30 => {
                self.find_moved();
                self.stop(Ending::DataNacked);
            }
            0x58 => {
                self.count = job.n;
                self.read_all();
                self.stop(Ending::Done);
            }
            0x38 => {
                self.write(3, 0x40);
                self.end(Ending::Lost);
            }
            0x00 | 0x70 | 0x78 => self.end(Ending::Fault),
            _ => {}
        }
    }
}

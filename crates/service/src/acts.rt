// Acts of a driver, and what follows on them: it goes on, waits for own STOP, or is over. Each changes the progress in place.
ghost use Rattle.std.specs.Prelude.{[], ◌++◌, ◌≡◌, ◌≤◌, length, drop};
ghost use Rattle.block.specs.Block.{after_reads, values_read};
ghost use Rattle.service.specs.Act.{writes, reads_all, reads_count, ends, does, does_all, follows, performs};
ghost use Rattle.service.specs.JobSteps.{finds_moved, stop_after};

use crate::progress::Progress;
use answer::ending::Ending;
use answer::value_of;
use block::read_block;
use controller::record::Controller;

// I2CDAT is read n times, and what it gave put into the first n places. (A function of its own, since a part of an array field cannot be lent beside
// another field of the same progress.)
fn read_first(c: &mut Controller, n: usize, places: &mut [u8])
    requires { n ≤ length places.old }
    ensures next { c.new ≡ after_reads n c.old }
    ensures places { places.new ≡ values_read n c.old ++ drop n places.old }
{
    read_block(c, &mut places[..n]);
}

impl Progress {
    // A register is written. (A refused write changes nothing.)
    #[tactic(auto, unfolding(crate::specs::Act::does, crate::specs::Act::put, controller::specs::Reply::outcome))]
    pub(crate) fn write(&mut self, register: u8, value: u8)
        ensures { self.new ≡ does (writes register value) self.old }
    {
        let _ = self.controller.on_write(register, value);
    }

    // Register 2 is read, and noted as the count.
    #[tactic(auto, unfolding(crate::specs::Act::does, crate::specs::Act::reads, controller::specs::Reply::outcome))]
    fn read_count(&mut self)
        ensures { self.new ≡ does reads_count self.old }
    {
        self.count = value_of(self.controller.on_read(2));
    }

    // 30h: the moved count is noted; the pointer goes to 07h for it, and back to 00h.
    #[tactic(auto, unfolding(crate::specs::Act::does_all))]
    pub(crate) fn find_moved(&mut self)
        ensures { self.new ≡ does_all finds_moved self.old }
    {
        self.write(0, 0x07);
        self.read_count();
        self.write(0, 0x00);
    }

    // I2CDAT is read as often as the count noted says, and at most 68 times.
    pub(crate) fn read_all(&mut self)
        ensures { self.new ≡ does reads_all self.old }
    {
        let n = self.count.min(68) as usize;
        read_first(&mut self.controller, n, &mut self.fetched);
    }

    // The driver asks for a STOP, which will give this answer.
    #[tactic(auto, unfolding(crate::specs::Act::performs, crate::specs::Act::does_all, crate::specs::Act::follows))]
    pub(crate) fn stop(&mut self, ending: Ending)
        ensures { self.new ≡ performs (stop_after [] ending) self.old }
    {
        self.write(3, 0x50);
        self.ending = ending;
    }

    // The job ends at once, with this answer and count 0.
    #[tactic(auto, unfolding(crate::specs::Act::follows))]
    pub fn end(&mut self, ending: Ending)
        ensures { self.new ≡ follows (ends ending) self.old }
    {
        self.over = true;
        self.ending = ending;
        self.count = 0;
    }
}

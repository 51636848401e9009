// The access that the port asks for.
ghost use Rattle.std.specs.Prelude.{[], ◌∷◌, ◌++◌, map, ◌≡◌, take};
ghost use Rattle.address.specs.Number.{byte_of};
ghost use Rattle.answer.specs.declared.ending.Ending.TheVariants.{DataNacked};
ghost use Rattle.port.specs.Ask.{ask_for};
ghost use Rattle.port.specs.Hear.{first_ask, asks};
ghost use Rattle.port.specs.InHand.{reads_from, accesses, alternates, recovers, line, nth};
ghost use Rattle.service.specs.Act.{writes, read_times};
ghost use Rattle.service.specs.JobSteps.{begins, finds_moved, stop_after};

use crate::ask::Ask;
use crate::stage::Stage;
use crate::stand::Stand;
use service::table::count_of;

// 30h: the moved count is read at pointer 07h.
fn ask_moved(made: u8) -> Ask
    ensures { result ≡ ask_for (nth (stop_after finds_moved DataNacked).acts made) }
{
    match made {
        0 => Ask::Write(0, 0x07),
        1 => Ask::Read(2),
        2 => Ask::Write(0, 0x00),
        _ => Ask::Write(3, 0x50),
    }
}

impl Stand {
    // One of the first writes of a job.
    fn ask_first(self) -> Ask
        ensures { result ≡ ask_for (nth (begins self.job) self.made) }
    {
        match self.made {
            0 => Ask::Write(0, 0x00),
            1 => Ask::Write(2, count_of(self.job.direction, self.job.n)),
            _ => Ask::Write(3, 0x60),
        }
    }

    // 08h: the address byte.
    fn ask_address(self) -> Ask
        ensures { result ≡ ask_for (nth (writes 1 (byte_of self.job.address self.job.direction).0 ∷ writes 3 0x40 ∷ []) self.made) }
    {
        let first = self.made == 0; // a name of its own, by which the proof and its wrong program go
        if first {
            Ask::Write(1, self.job.address.byte(self.job.direction).0)
        } else {
            Ask::Write(3, 0x40)
        }
    }

    // 18h: the data.
    fn ask_data(self, payload: &[u8]) -> Ask
        ensures { result ≡ ask_for (nth (map (writes 1) (take self.job.n payload.now) ++ (writes 3 0x41 ∷ [])) self.made) }
    {
        match self.bytes(payload).get(usize::from(self.made)) {
            Some(byte) => Ask::Write(1, *byte),
            None => Ask::Write(3, 0x41),
        }
    }

    // 58h: the bytes that came in.
    fn ask_back(self) -> Ask
        ensures { result ≡ ask_for (nth (reads_from (read_times self.job.n) 0 ++ (writes 3 0x50 ∷ [])) self.made) }
    {
        if self.made < self.reads() {
            Ask::Read(1)
        } else {
            Ask::Write(3, 0x50)
        }
    }

    // One of the accesses of the work at a status. (58h and 18h have one for each byte, and come first for speed.)
    fn ask_work(self, payload: &[u8]) -> Ask
        ensures { result ≡ ask_for (nth (accesses self.count (line self payload.now).acts) self.made) }
    {
        if self.status == 0x58 {
            return self.ask_back();
        }
        if self.status == 0x18 {
            return self.ask_data(payload);
        }
        match self.status {
            0x08 => self.ask_address(),
            0x40 => Ask::Write(3, 0x41),
            0x20 | 0x28 | 0x48 => Ask::Write(3, 0x50),
            0x30 => ask_moved(self.made),
            0x38 => Ask::Write(3, 0x40),
            _ => Ask::Wait,
        }
    }

    // One of the settings, or 40h after them.
    fn ask_setting(self, payload: &[u8], i: usize) -> Ask
        ensures { result ≡ ask_for (nth (alternates 0 2 (take self.job.n payload.now) ++ (writes 3 0x40 ∷ [])) i) }
    {
        match self.bytes(payload).get(i) {
            Some(value) if i % 2 == 0 => Ask::Write(0, *value),
            Some(value) => Ask::Write(2, *value),
            None => Ask::Write(3, 0x40),
        }
    }

    // One of the writes of a recovery.
    fn ask_recovery(self, payload: &[u8]) -> Ask
        ensures { result ≡ ask_for (nth (recovers (take self.job.n payload.now)) self.made) }
    {
        match self.made {
            0 => Ask::Write(0, 0x05),
            1 => Ask::Write(2, 0xA5),
            2 => Ask::Write(2, 0x5A),
            made => self.ask_setting(payload, usize::from(made) - 3),
        }
    }

    // What is asked for first, where something was just begun or broken off. (`ask` is left to the step: a function with one caller is compiled into it.)
    #[tactic(auto, unfolding(crate::specs::Hear::first_ask), using(crate::proofs::Stages::tag_number, notation::proofs::Cases::cases))]
    pub fn ask_begun(self) -> Ask
        ensures { result ≡ first_ask self }
    {
        match self.stage {
            Stage::Control => Ask::Read(3),
            Stage::Recovering => Ask::Write(0, 0x05),
            _ => Ask::Over(self.answer, self.count),
        }
    }

    // What is asked for at this stage.
    #[tactic(auto, unfolding(crate::specs::Hear::asks, crate::specs::Hear::asks_at, crate::specs::InHand::in_hand_at))]
    pub fn ask(self, payload: &[u8]) -> Ask
        ensures { result ≡ asks self payload.now }
    {
        match self.stage {
            Stage::Over => Ask::Over(self.answer, self.count),
            Stage::Control => Ask::Read(3),
            Stage::Status => Ask::Read(0),
            Stage::First => self.ask_first(),
            Stage::Waiting => Ask::Wait,
            Stage::Look => Ask::Read(3),
            Stage::Interrupted => Ask::Read(0),
            Stage::Working => self.ask_work(payload),
            Stage::Recovering => self.ask_recovery(payload),
            Stage::Pausing => Ask::Pause,
            Stage::Recheck => Ask::Read(3),
        }
    }
}

// The accesses in hand: how many there are, at which place a value is noted, and what follows on the last.
ghost use Rattle.std.specs.Prelude.{List, ◌≡◌, ℕ, ◌+◌, ◌≤◌, ◌<◌, ltb, length, take, IfSome};
ghost use Rattle.notation.specs.Choice.{when◌then◌else◌};
ghost use Rattle.port.specs.Hear.{place_number, noted_at, concludes};
ghost use Rattle.port.specs.InHand.{accesses, line, nth, count_after};
ghost use Rattle.port.specs.Stand.{at_stage, advanced};
ghost use Rattle.service.specs.Act.{read_times};
ghost use Rattle.service.specs.JobTable.{job_table};

use crate::stage::Stage;
use crate::stand::Stand;
use answer::ending::Ending;

impl Stand {
    // The data of a write, or the settings of a recovery: the first n bytes lent, where there are as many.
    #[tactic(auto, using(std::proofs::lemmas::List::take_min))]
    pub(crate) fn bytes(self, payload: &[u8]) -> &[u8]
        ensures { result.now ≡ take self.job.n payload.now }
    {
        &payload[..usize::from(self.job.n).min(payload.len())]
    }

    // How many bytes are read back: there are 68 places to note them at.
    #[tactic(auto, using(crate::proofs::Totals::times_is))]
    pub(crate) fn reads(self) -> u8
        ensures { result ≡ read_times self.job.n }
    {
        self.job.n.min(68)
    }

    // How many accesses the work at a status has. (58h and 18h have one for each byte, and come first for
    // speed: as arms of the match, here and in `ask_work`, a read of 8 bytes took 7 in 100 instructions more.)
    pub(crate) fn work_total(self, payload: &[u8]) -> usize
        ensures { result ≡ length (accesses self.count (line self payload.now).acts) }
    {
        if self.status == 0x58 {
            return usize::from(self.reads()) + 1;
        }
        if self.status == 0x18 {
            return self.bytes(payload).len() + 1;
        }
        match self.status {
            0x08 => 2,
            0x20 | 0x28 | 0x38 | 0x40 | 0x48 => 1,
            0x30 => 4,
            _ => 0,
        }
    }

    // The place at which the value is noted: that of a byte read back.
    pub fn place(self) -> Option<usize>
        ensures place { (payload : List ℕ) → place_number result ≡ noted_at self payload }
        ensures in_range { IfSome result (λ i. i < 68) }
    {
        if self.stage == Stage::Working && self.status == 0x58 && self.made < self.reads() {
            Some(usize::from(self.made))
        } else {
            None
        }
    }

    // The count, where the access that was made reads one.
    pub(crate) fn note_count(self, value: u8) -> u8
        ensures { (payload : List ℕ) → result ≡ count_after (nth (accesses self.count (line self payload).acts) self.made) self.count value }
    {
        let second = self.made == 1; // a name of its own, by which the proof and its wrong program go
        if self.status == 0x30 && second {
            value
        } else {
            self.count
        }
    }

    // The next of so many accesses, or after the last another stage.
    #[tactic(auto, using(notation::proofs::Cases::cases))]
    pub(crate) fn onward(self, total: usize, stage: Stage) -> Stand
        requires { total ≤ 255 }
        ensures { result ≡ (when ltb (self.made + 1) total then advanced self else at_stage self stage) }
    {
        if usize::from(self.made) + 1 < total {
            self.advance()
        } else {
            self.at(stage)
        }
    }

    // What follows on the work at a status.
    pub(crate) fn conclude(self) -> Stand
        ensures { (payload : List ℕ) (count : ℕ) → result ≡ concludes (job_table self.job payload self.status count).after self }
    {
        match self.status {
            0x20 | 0x48 => self.await_stop(Ending::AddressNacked),
            0x28 | 0x58 => self.await_stop(Ending::Done),
            0x30 => self.await_stop(Ending::DataNacked),
            0x38 => self.end(Ending::Lost),
            0x00 | 0x70 | 0x78 => self.end(Ending::Fault),
            _ => self.at(Stage::Waiting),
        }
    }
}

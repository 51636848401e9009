// What the port does next, by what it last asked for and the value that was read.
ghost use Rattle.std.specs.Prelude.{true, false, List, [], ◌≡◌, ℕ, ◌+◌, ◌≤◌, ◌<◌, length};
ghost use Rattle.notation.specs.Choice.{among};
ghost use Rattle.port.specs.Hear.{enters, looked, next_of, hears_at, hears};
ghost use Rattle.port.specs.Look.{meets};
ghost use Rattle.service.specs.JobTable.{job_table};

use crate::look::{interrupts, is_idle, is_met, is_still};
use crate::stage::Stage;
use crate::stand::Stand;
use answer::ending::Ending;
use control::flags::Control;

impl Stand {
    // After a wait, by I2CCON.
    #[tactic(auto, unfolding(crate::specs::Hear::looked), using(notation::proofs::Cases::cases))]
    fn look(self, value: u8) -> Stand
        ensures { result ≡ looked self value }
    {
        let flags = Control::from(value);
        if !flags.ensio {
            self.end(Ending::Reset)
        } else if interrupts(value) {
            self.at(Stage::Interrupted)
        } else if self.due && !flags.sto {
            self.finish()
        } else {
            self.at(Stage::Waiting)
        }
    }

    // The work at a status begins.
    fn enter(self, status: u8) -> Stand
        requires { among status (meets self.job.direction) ≡ true }
        ensures { (payload : List ℕ) → result ≡ enters self status (job_table self.job payload status self.count) }
    {
        match status {
            0x00 | 0x70 | 0x78 => self.at_work(status, self.count).end(Ending::Fault),
            0x20 | 0x48 => self.at_work(status, 0),
            0x28 | 0x58 => self.at_work(status, self.job.n),
            _ => self.at_work(status, self.count),
        }
    }

    // I2CSTA was read, since SI was 1.
    #[tactic(auto, unfolding(crate::specs::Hear::hears_at), using(notation::proofs::Cases::cases))]
    fn serve(self, payload: &[u8], status: u8) -> Stand
        ensures { result ≡ hears_at Stage.Interrupted self payload.now status }
    {
        if is_met(self.job.direction, status) {
            self.enter(status)
        } else {
            self.at(Stage::Waiting)
        }
    }

    // The next access of a line; where the bytes of a read are read back and 50h alone is left, I2CCON is looked at first.
    #[tactic(auto, unfolding(crate::specs::Hear::next_of), using(notation::proofs::Cases::cases))]
    fn next_of(self, total: usize) -> Stand
        requires { (self.made + 1 < total) × (total ≤ 255) }
        ensures { result ≡ next_of self total }
    {
        if self.status == 0x58 && usize::from(self.made) + 2 == total {
            self.advance().at(Stage::Recheck)
        } else {
            self.advance()
        }
    }

    // I2CCON, after the bytes of a read were read back: they count only if nothing has happened to the chip meanwhile.
    #[tactic(auto, unfolding(crate::specs::Hear::hears_at), using(notation::proofs::Cases::cases))]
    fn recheck(self, value: u8) -> Stand
        ensures { result ≡ hears_at Stage.Recheck self [] value }
    {
        if is_still(value) {
            self.at(Stage::Working)
        } else {
            self.end(Ending::Reset)
        }
    }

    // One of the accesses of the work at a status was made.
    fn work(self, payload: &[u8], value: u8) -> Stand
        requires { (length payload.now ≤ 68) × (self.stage ≡ Stage.Working) }
        ensures { result ≡ hears_at Stage.Working self payload.now value }
    {
        let total = self.work_total(payload);
        let noted = Stand {
            count: self.note_count(value),
            ..self
        };
        if usize::from(self.made) + 1 < total {
            noted.next_of(total)
        } else {
            noted.conclude()
        }
    }

    // The chip is brought back.
    #[tactic(auto, unfolding(crate::specs::Hear::hears_at))]
    fn recover(self) -> Stand
        ensures { result ≡ hears_at Stage.Pausing self [] 0 }
    {
        Stand {
            stale: false,
            ..self.end(Ending::Done)
        }
    }

    // Where the job stands once the value is heard.
    #[tactic(auto, unfolding(crate::specs::Hear::hears, crate::specs::Hear::hears_at, crate::specs::Hear::onward, crate::specs::InHand::in_hand_at), using(notation::proofs::Cases::cases))]
    pub fn hear(self, payload: &[u8], value: u8) -> Stand
        requires { length payload.now ≤ 68 }
        ensures { result ≡ hears self payload.now value }
    {
        match self.stage {
            Stage::Over => self,
            Stage::Control if is_idle(value) => self.at(Stage::Status),
            Stage::Status if value == 0xF8 => Stand {
                stage: Stage::First,
                made: 0,
                ..self
            },
            Stage::Control | Stage::Status => self.end(Ending::NotReady),
            Stage::First => self.onward(3, Stage::Waiting),
            Stage::Waiting => self.at(Stage::Look),
            Stage::Look => self.look(value),
            Stage::Interrupted => self.serve(payload, value),
            Stage::Working => self.work(payload, value),
            Stage::Recovering => self.onward(self.bytes(payload).len() + 4, Stage::Pausing),
            Stage::Pausing => self.recover(),
            Stage::Recheck => self.recheck(value),
        }
    }
}

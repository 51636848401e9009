// Handing up, after the job is over.
ghost use Rattle.std.specs.Prelude.{◌≡◌, ◌≤◌, length, take};
ghost use Rattle.notation.specs.Overlay.{laid};
ghost use Rattle.port.specs.HandUp.{take_done, take_of};

use crate::stage::Stage;
use crate::stand::Stand;
use address::number::Direction;
use answer::ending::Ending;

// The first n bytes, put at the start of the destination. (No `copy_from_slice`: it would call memmove, and include/perlovasta_dock.h promises that the
// library calls nothing outside itself. A loop with two ways out stays a loop.)
fn copy_first(bytes: &[u8], n: usize, destination: &mut [u8])
    requires { n ≤ length destination.old }
    ensures { destination.new ≡ laid (take n bytes.now) destination.old }
{
    for i in 0..n {
        if bytes.len() <= i {
            return;
        }
        destination[i] = bytes[i];
    }
}

impl Stand {
    // Of a job that is done.
    #[tactic(auto, unfolding(crate::specs::HandUp::take_done, address::specs::Number::bit_of, notation::specs::Overlay::laid), using(notation::proofs::Cases::cases))]
    fn hand_up_done(self, fetched: &[u8], destination: &mut [u8]) -> u8
        ensures answer { result ≡ (take_done self fetched.now (length destination.old)).answer }
        ensures handed { destination.new
            ≡ laid (take_done self fetched.now (length destination.old)).handed destination.old }
    {
        let n = usize::from(self.job.n);
        match self.job.direction {
            Direction::Read if n <= destination.len() => {
                copy_first(fetched, n, destination);
                Ending::Done.number()
            }
            _ => Ending::Malformed.number(),
        }
    }

    // The bytes of a finished read go to the destination; else nothing does, and the answer says why. (It is a number and no Ending, as in the state.)
    #[tactic(auto, unfolding(crate::specs::HandUp::take_of, notation::specs::Overlay::laid), using(crate::proofs::Stages::tag_number, notation::proofs::Cases::cases))]
    pub fn hand_up(self, fetched: &[u8], destination: &mut [u8]) -> u8
        ensures answer { result ≡ (take_of self fetched.now (length destination.old)).answer }
        ensures handed { destination.new
            ≡ laid (take_of self fetched.now (length destination.old)).handed destination.old }
    {
        if self.stage != Stage::Over {
            return Ending::Unfinished.number();
        }
        if self.answer != Ending::Done.number() {
            return self.answer;
        }
        self.hand_up_done(fetched, destination)
    }
}

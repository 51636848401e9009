// What the port last asked for.
ghost use Rattle.std.specs.Prelude.{◌≡◌};
ghost use Rattle.port.specs.Stage.{stage_number, stage_for};

#[derive(Clone, Copy, Debug, PartialEq, Eq)]
pub enum Stage {
    // Nothing: it is over, with an answer.
    Over = 0,
    // I2CCON, before the first write.
    Control = 1,
    // I2CSTA, before the first write.
    Status = 2,
    // One of the first writes of a job.
    First = 3,
    // A wait.
    Waiting = 4,
    // I2CCON, after a wait.
    Look = 5,
    // I2CSTA, since SI was 1.
    Interrupted = 6,
    // One of the accesses of the work at a status.
    Working = 7,
    // One of the writes of a recovery.
    Recovering = 8,
    // The pause that ends a recovery.
    Pausing = 9,
    // I2CCON, after the bytes of a read were read back.
    Recheck = 10,
}

// The number in the state's bytes.
impl From<Stage> for u8 {
    ghost from_gives = { λ stage k. k ≡ stage_number stage };

    #[tactic(auto, using(crate::proofs::Stages::tag_number))]
    fn from(stage: Stage) -> u8 {
        stage as u8
    }
}

// The stage with this number; any other number is Over, since the lent bytes may hold any.
impl From<u8> for Stage {
    ghost from_gives = { λ k stage. stage ≡ stage_for k };

    fn from(k: u8) -> Stage {
        match k {
            1 => Stage::Control,
            2 => Stage::Status,
            3 => Stage::First,
            4 => Stage::Waiting,
            5 => Stage::Look,
            6 => Stage::Interrupted,
            7 => Stage::Working,
            8 => Stage::Recovering,
            9 => Stage::Pausing,
            10 => Stage::Recheck,
            _ => Stage::Over,
        }
    }
}

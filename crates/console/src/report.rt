// The three lines of a job.
ghost use Rattle.console.specs.JobText.{beside, first_line, bytes_line, job_text};
ghost use Rattle.text.specs.Text.{Holds};
ghost use Rattle.answer.specs.Ending.{number_of, beside_of};
ghost use Rattle.driver.specs.Run.{result_of};

use answer::ending::Ending;
use driver::result::JobResult;
use text::put::{put, put_decimal, put_listed, put_word};

// The number beside answer 28.
#[tactic(auto, using(text::proofs::Holds::joins, notation::proofs::Cases::cases), unfolding(crate::specs::JobText::beside))]
fn put_beside(text: &mut [u8], at: usize, ending: Ending) -> usize
    ensures { Holds at (beside (number_of ending) (beside_of ending)) text.old text.new result }
{
    if let Ending::Refused(why) = ending {
        let next = put_word(text, at, b" refused ");
        put_decimal(text, next, why.number() as usize)
    } else {
        at
    }
}

// `answer 0 count 2 events 5`
fn put_first_line(text: &mut [u8], at: usize, res: &JobResult) -> usize
    ensures { Holds at (first_line (result_of res.now)) text.old text.new result }
{
    let next = put_word(text, at, b"answer ");
    let next = put_decimal(text, next, res.ending.number() as usize);
    let next = put_word(text, next, b" count ");
    let next = put_decimal(text, next, res.count as usize);
    let next = put_word(text, next, b" events ");
    let next = put_decimal(text, next, res.events);
    let next = put_beside(text, next, res.ending);
    put(text, next, b'\n')
}

// A word and bytes.
#[tactic(auto, using(text::proofs::Holds::joins), unfolding(crate::specs::JobText::bytes_line))]
fn put_bytes_line(text: &mut [u8], at: usize, word: &[u8], bytes: &[u8]) -> usize
    ensures { Holds at (bytes_line word.now bytes.now) text.old text.new result }
{
    let next = put_word(text, at, word);
    let next = put_listed(text, next, bytes);
    put(text, next, b'\n')
}

// The three lines.
#[tactic(auto, using(text::proofs::Holds::joins), unfolding(crate::specs::JobText::job_text))]
pub fn put_job(text: &mut [u8], at: usize, res: &JobResult, sent: &[u8], handed: &[u8]) -> usize
    ensures { Holds at (job_text (result_of res.now) sent.now handed.now) text.old text.new result }
{
    let next = put_first_line(text, at, res);
    let next = put_bytes_line(text, next, b"out", sent);
    put_bytes_line(text, next, b"in", handed)
}

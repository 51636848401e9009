// Any bus event, by its number.
ghost use Rattle.std.specs.Prelude.{◌≡◌, true, eqb, ltb};
ghost use Rattle.controller.specs.Record.{sound};
ghost use Rattle.controller.specs.Reply.{outcome, outcome_of};
ghost use Rattle.notation.specs.Choice.{◌or◌};
ghost use Rattle.controller.specs.Event.{bad_argument, event_sound, event_of};

use crate::record::Controller;
use crate::reply::Reply;
use answer::{Answer, Refusal};

// The number is not 1..14.
fn is_no_event(number: u8) -> bool
    ensures { result ≡ (eqb number 0 or ltb 14 number) }
{
    number == 0 || 14 < number
}

// The argument is not one that the event takes.
fn is_bad_argument(number: u8, argument: u8) -> bool
    ensures { result ≡ bad_argument number argument }
{
    match number {
        5 => false,
        7 => false,
        8 => false,
        6 => 1 < argument,
        _ => 0 < argument,
    }
}

impl Controller {
    // Events 1 to 13. (Of a sound record, as the rules of bytes are: no type has that for an invariant, since `event_of` is of any record, refusal 10.)
    fn event_sound(&mut self, number: u8, argument: u8) -> Answer
        requires { sound self.old ≡ true }
        ensures { outcome self.new result ≡ event_sound self.old number argument }
    {
        match number {
            1 => self.own_start(),
            2 => self.other_start(),
            3 => self.other_stop(),
            4 => self.own_stop(),
            5 => self.address_byte(argument),
            6 => self.byte_out(argument),
            7 => self.byte_in(argument),
            8 => self.address_lost(argument),
            9 => self.data_lost(),
            10 => self.illegal_edge(),
            11 => self.data_held(),
            12 => self.clock_held(),
            13 => self.idle(),
            _ => Err(Refusal::Unexpected),
        }
    }

    // Any event with any argument, of any record, in place. (By numbers and no enum: refusals 1 and 2 are of numbers that name no event.)
    pub fn on_event(&mut self, number: u8, argument: u8) -> Answer
        ensures { outcome self.new result ≡ event_of self.old number argument }
    {
        if is_no_event(number) {
            return Err(Refusal::OutOfRange);
        }
        if is_bad_argument(number, argument) {
            return Err(Refusal::BadArgument);
        }
        if number == 14 {
            self.reset();
            return Ok(0);
        }
        if !self.is_sound() {
            return Err(Refusal::Unsound);
        }
        self.event_sound(number, argument)
    }

    // The same of a record by value: the form that document 01 lists.
    pub fn event(mut self, number: u8, argument: u8) -> Reply
        ensures { outcome_of result ≡ event_of self number argument }
    {
        let answer = self.on_event(number, argument);
        Reply {
            controller: self,
            answer,
        }
    }
}

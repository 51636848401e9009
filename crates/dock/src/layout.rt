// What stands where in a state (specs/StateBytes.antt): the head, data from HEAD on, bytes read back from FETCHED on, PLACES of each.
pub(crate) const HEAD: usize = 12;

pub(crate) const PLACES: usize = 68;

pub(crate) const FETCHED: usize = HEAD + PLACES;

pub(crate) const SIZE: usize = FETCHED + PLACES;

pub(crate) type State = [u8; SIZE];

// Standard output.
use std::io;
use std::io::Write;
use text::Text;

// Writes the text. (A write that fails is passed over.)
pub(crate) fn print<const N: usize>(rt: &impl Print, text: &Text<N>) {
    let _ = io::writer(rt).write_all(text.as_bytes());
}

// The sizes that bytes name, before anybody has judged them: how much to lend for reading them. No Reader serves here: it hands on
// nothing where the bytes end, and these go on past it, also in the middle of a number.
ghost use Rattle.std.specs.Prelude.{◌≡◌, ◌^◌, ◌<◌};
ghost use Rattle.layout.specs.Bytes.{byte, word, sizes_in};

use crate::limits::PLACES_FROM;
use layout::Sizes;

// The byte at `at`, 0 past the end.
fn byte_or_zero(bytes: &[u8], at: usize) -> u8
    ensures { result ≡ byte bytes.now at }
{
    bytes.get(at).copied().unwrap_or(0)
}

// The number of two bytes at `at`, of which 0 stands for what is past the end.
fn word_or_zero(bytes: &[u8], at: usize) -> u16
    requires { at < 2 ^ 32 }
    ensures { result ≡ word bytes.now at }
{
    u16::from_le_bytes([byte_or_zero(bytes, at), byte_or_zero(bytes, at + 1)])
}

// The sizes of the round that the bytes are, if they are one. Nothing is judged: other bytes name sizes too, and what is past their
// end counts as 0. Only the counts are looked at, from record to record, with a cursor, since records are of changing length.
pub fn measure(bytes: &[u8]) -> Sizes
    ensures { result ≡ sizes_in bytes.now }
{
    let applicants = usize::from(word_or_zero(bytes, 0));
    let workshops = usize::from(word_or_zero(bytes, 2));
    let records_from = PLACES_FROM + workshops;
    let mut at = records_from;
    for _a in 0..applicants {
        at += 3 + usize::from(byte_or_zero(bytes, at + 2));
    }
    Sizes {
        applicants,
        workshops,
        entries: at - records_from - 3 * applicants,
        rows: usize::from(word_or_zero(bytes, at)),
    }
}

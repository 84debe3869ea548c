// The reading of the bytes of a round from the front: each reader hands on the number that stands next and moves behind it, or hands on
// nothing where the bytes end before it.
ghost use Rattle.std.specs.Prelude.{◌≡◌, ◌+◌, ◌≤◌, length, option_copied, is_some, slice_range, OnSome, if◌then◌else◌};
ghost use Rattle.layout.specs.Bytes.{byte, word};

// The bytes, and where the next number stands: never past their end. Each method says that the bytes stay, which a type cannot say of a
// value before and after a call.
#[derive(Drop)]
pub(crate) struct Reader<'a> {
    pub(crate) bytes: &'a [u8],
    pub(crate) at: usize,
    ghost within: { at ≤ length bytes.now },
}

impl<'a> Reader<'a> {
    ghost use Rattle.codec.specs.Readers.{Stands, there};

    // At the first byte.
    pub(crate) fn new(bytes: &'a [u8]) -> Reader<'a>
        ensures { Stands result bytes.now 0 }
    {
        Reader { bytes, at: 0 }
    }

    // The next N bytes.
    fn take<const N: usize>(&mut self) -> Option<&'a [u8; N]>
        ensures answer { option_copied result ≡ there self.old.bytes.now self.old.at N (slice_range self.old.bytes.now self.old.at (self.old.at + N)) }
        ensures moved { self.new.at ≡ (if is_some result then self.old.at + N else self.old.at) }
        ensures same { self.new.bytes.now ≡ self.old.bytes.now }
    {
        let next = self.bytes[self.at..].first_chunk::<N>();
        if next.is_some() {
            self.at += N;
        }
        next
    }

    // The next byte.
    pub(crate) fn byte(&mut self) -> Option<u8>
        ensures answer { result ≡ there self.old.bytes.now self.old.at 1 (byte self.old.bytes.now self.old.at) }
        ensures moved { OnSome result (self.new.at ≡ self.old.at + 1) }
        ensures same { self.new.bytes.now ≡ self.old.bytes.now }
    {
        let [byte] = *self.take::<1>()?;
        Some(byte)
    }

    // The next number of two bytes, the low one first.
    pub(crate) fn word(&mut self) -> Option<u16>
        ensures answer { result ≡ there self.old.bytes.now self.old.at 2 (word self.old.bytes.now self.old.at) }
        ensures moved { OnSome result (self.new.at ≡ self.old.at + 2) }
        ensures same { self.new.bytes.now ≡ self.old.bytes.now }
    {
        let pair = self.take::<2>()?;
        Some(u16::from_le_bytes(*pair))
    }

    // The next byte and the two numbers of two bytes behind it: one test for all five bytes.
    pub(crate) fn row(&mut self) -> Option<(u8, u16, u16)>
        ensures answer { result ≡ there self.old.bytes.now self.old.at 5 (byte self.old.bytes.now self.old.at, word self.old.bytes.now (self.old.at + 1), word self.old.bytes.now (self.old.at + 3)) }
        ensures moved { self.new.at ≡ (if is_some result then self.old.at + 5 else self.old.at) }
        ensures same { self.new.bytes.now ≡ self.old.bytes.now }
    {
        let [workshop, low, high, points_low, points_high] = *self.take::<5>()?;
        let applicant = u16::from_le_bytes([low, high]);
        let points = u16::from_le_bytes([points_low, points_high]);
        Some((workshop, applicant, points))
    }
}

// The number of two bytes at `at`, which are there.
pub(crate) fn word_in(bytes: &[u8], at: usize) -> u16
    requires { at + 2 ≤ length bytes.now }
    ensures { result ≡ word bytes.now at }
{
    u16::from_le_bytes([bytes[at], bytes[at + 1]])
}

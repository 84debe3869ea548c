// One entry of a letter, read from the part of the letter that it begins.
ghost use Rattle.std.specs.Prelude.{◌≡◌, ◌≤◌, length, MatchResult};
ghost use Rattle.layout.specs.Slices.{outcome};
ghost use Rattle.letters.specs.Letter.{cut_of_numbers, entry_in};
ghost use Rattle.letters.specs.Faults.{entry_fault};
ghost use Rattle.letters.specs.Kinds.{Told, number_of_kind};

use cuts::Cut;
use layout::{Lot, Points};

// What a letter says of one entry of the list: the workshop, the applicant's points there, and the workshop's cut.
#[derive(Clone, Copy)]
pub struct Entry {
    pub workshop: u8,
    pub points: Points,
    pub cut: Cut,
}

// The kind of a cut, as the byte in front of its numbers tells it.
#[derive(Clone, Copy, PartialEq, Eq)]
pub(crate) enum Kind {
    Open,
    Full,
    Shut,
}

// A byte that is no kind.
#[derive(Clone, Copy)]
pub(crate) struct NoKind;

impl TryFrom<u8> for Kind {
    type Error = NoKind;

    ghost try_from_gives = { Told };

    fn try_from(number: u8) -> Result<Kind, NoKind> {
        match number {
            0 => Ok(Kind::Open),
            1 => Ok(Kind::Full),
            2 => Ok(Kind::Shut),
            _ => Err(NoKind),
        }
    }
}

// The entry at the front of a part of a letter, or the place of its first fault in the part.
pub fn read_entry(part: &[u8]) -> Result<Entry, usize>
    ensures read { result ≡ outcome (entry_fault part.now) (entry_in part.now) }
    ensures inside { MatchResult result (λ _. 8 ≤ length part.now) (λ k. k ≤ length part.now) }
{
    if part.len() < 4 {
        return Err(part.len());
    }
    let Ok(kind) = Kind::try_from(part[3]) else {
        return Err(3);
    };
    if part.len() < 6 {
        return Err(part.len());
    }
    let points = u16::from_le_bytes([part[4], part[5]]);
    if kind != Kind::Full && points > 0 {
        return Err(4);
    }
    if part.len() < 8 {
        return Err(part.len());
    }
    let lot = u16::from_le_bytes([part[6], part[7]]);
    if kind != Kind::Full && lot > 0 {
        return Err(6);
    }
    Ok(Entry {
        workshop: part[0],
        points: Points(u16::from_le_bytes([part[1], part[2]])),
        cut: cut_from(kind, points, lot),
    })
}

// The cut that a letter says by its kind and its numbers.
fn cut_from(kind: Kind, points: u16, lot: u16) -> Cut
    ensures { result ≡ cut_of_numbers (number_of_kind kind) points lot }
{
    match kind {
        Kind::Open => Cut::Open,
        Kind::Full => Cut::Full(Points(points), Lot(lot)),
        Kind::Shut => Cut::Shut,
    }
}

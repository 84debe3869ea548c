// A letter in words.
ghost use Rattle.std.specs.Coded.{Coded-set};
ghost use Rattle.std.specs.Prelude.{◌≡◌, ◌<◌, ◌++◌, IfOk, IsNone, None, string_bytes, MatchResult, OnOk};
ghost use Rattle.layout.specs.Bytes.{byte, word};
ghost use Rattle.layout.specs.Slices.{flat};
ghost use Rattle.letters.specs.Faults.{letter_fault, verdict_in};
ghost use Rattle.letters.specs.Letter.{count_in, place_at, place_told};
ghost use Rattle.texts.specs.Faults.{Faulty};
ghost use Rattle.texts.specs.Words.{fault_in_letter, wish_line, entry_line, place_line, words_of};

use crate::fault::Fault;
use cuts::reaches;
use layout::{Lot, Points};
use letters::{Entry, Verdict, check_letter, entry_at};
use std::alloc::{AllocError, Global};

// What a letter says, in words, with `accepted` as the last line; or why it is refused. Only of a letter that is not refused does it say
// that memory ran out.
pub fn explain(heap: Global, letter: &[u8]) -> Result<String, Fault>
    ensures { MatchResult result (λ s. (fault_in_letter letter.now ≡ None) × (string_bytes s ≡ words_of letter.now)) (Faulty (fault_in_letter letter.now)) }
{
    let verdict = check_letter(letter)?;
    let right = Right { letter, verdict };
    let text = right.in_words(heap)?;
    Ok(text)
}

// A letter that was found right, and what the checker says of it.
#[derive(Clone, Copy)]
struct Right<'a> {
    letter: &'a [u8],
    verdict: Verdict,
    ghost whole: { IsNone (letter_fault letter.now) },
    ghost read: { verdict ≡ verdict_in letter.now } by { Coded-set verdict-code _ _ },
}

impl Right<'_> {
    // The letter in words.
    fn in_words(&self, heap: Global) -> Result<String, AllocError>
        ensures { IfOk result (λ s. string_bytes s ≡ words_of self.now.letter.now) }
    {
        let applicant = self.verdict.applicant;
        let Lot(lot) = self.verdict.lot;
        let mut text = String::new(heap);
        writeln!(text, "applicant {applicant} lot {lot}")?;
        self.push_wishes(&mut text)?;
        self.push_place(&mut text)?;
        writeln!(text, "accepted")?;
        Ok(text)
    }

    // The lines of all wishes: by number, which the line says.
    fn push_wishes(&self, text: &mut String) -> Result<(), AllocError>
        ensures { OnOk result (string_bytes text.new ≡ string_bytes text.old ++ flat (entry_line self.now.letter.now) (count_in self.now.letter.now)) }
    {
        for j in 0..self.verdict.entries {
            self.push_entry(text, j)?;
        }
        Ok(())
    }

    // Reads one wish, and puts its line behind the text.
    fn push_entry(&self, text: &mut String, j: usize) -> Result<(), AllocError>
        requires { j < count_in self.now.letter.now }
        ensures { OnOk result (string_bytes text.new ≡ string_bytes text.old ++ entry_line self.now.letter.now j) }
    {
        let entry = entry_at(self.letter, j).unwrap();
        let reached = reaches(entry.points, self.verdict.lot, entry.cut);
        push_wish(text, j + 1, entry, reached)
    }

    // What was got.
    fn push_place(&self, text: &mut String) -> Result<(), AllocError>
        ensures { OnOk result (string_bytes text.new ≡ string_bytes text.old ++ place_line self.now.letter.now) }
    {
        let Some(place) = self.verdict.place else {
            return writeln!(text, "got none");
        };
        let Entry { workshop, .. } = entry_at(self.letter, place).unwrap();
        let wish = place + 1;
        writeln!(text, "got wish {wish} workshop {workshop}")
    }
}

// The line of one wish: the workshop, the own points there, the cut, and whether it is reached.
fn push_wish(text: &mut String, wish: usize, entry: Entry, reached: bool) -> Result<(), AllocError>
    ensures { OnOk result (string_bytes text.new ≡ string_bytes text.old ++ wish_line wish entry reached) }
{
    let Entry {
        workshop,
        points: Points(points),
        cut,
    } = entry;
    let reached = if reached { "reached" } else { "not reached" };
    writeln!(
        text,
        "wish {wish} workshop {workshop} points {points} cut {cut} {reached}"
    )
}

// The checker of letters beside letters that the trials write: the right place is accepted, every other one refused by its number,
// with the right place.
use crate::bytes::{NO_PLACE, ROOM};
use crate::case::Addressee;
use letters::check_letter;
use std::alloc::{AllocError, Global};

impl Addressee<'_> {
    // What the checker has to say of the letter that names a place, which is written into `letter`.
    fn is_judged_well(
        &self,
        letter: &mut Vec<u8>,
        place: Option<usize>,
    ) -> Result<bool, AllocError> {
        let right = self.place();
        self.letter(letter, place)?;
        Ok(match check_letter(letter.as_slice()) {
            Ok(verdict) => {
                place == right
                    && verdict.place == right
                    && usize::from(verdict.applicant) == self.number
                    && verdict.lot.0 == self.applicant.lot
                    && verdict.entries == self.applicant.wishes.len()
            }
            Err(refusal) => {
                place != right
                    && refusal.number() == 12
                    && refusal.place() == right.unwrap_or(usize::from(NO_PLACE))
            }
        })
    }

    // The same of every place that the list has, and of none. A loop, since `all` could not hand on that memory has run out.
    pub(crate) fn are_judged_well(&self, alloc: Global) -> Result<bool, AllocError> {
        let mut letter = Vec::with_capacity(alloc, ROOM)?;
        for place in (0..self.applicant.wishes.len()).map(Some).chain([None]) {
            if !self.is_judged_well(&mut letter, place)? {
                return Ok(false);
            }
        }
        Ok(true)
    }
}
